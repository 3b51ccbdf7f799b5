//! Runs of cases, and what is told of them.
ghost use Rattle.std.specs.Prelude.{◌≡◌, ◌<◌, ℕ, IfOk, length, slice_index_or};
ghost use Rattle.page_workers.specs.Seating.{IsUnused};

use crate::case::{Case, Streams};
use crate::fonts::{Failures, Fonts};
use crate::judge::{loads_of, pages_drawn, wrong_with};
use crate::show::{add_notes, add_pages};
use cache_core::Entry;
use dvi_run::dvipbm_run;
use outside::{Library, MemOutput};
use page_workers::Worker;
use std::alloc::{AllocError as NoMemory, Global};
use std::sync::Wait;
use std::thread::Threads;

/// What a run came to.
#[derive(Drop)]
pub struct Outcome {
    status: u8,
    output: MemOutput,
    notes: MemOutput,
    counts: Counts,
    // What is wrong with its work, or nothing.
    wrong: &'static str,
}

// What a run counts.
#[derive(Clone, Copy)]
struct Counts {
    // The calls of the cache.
    calls: u64,
    // The loads that the workers asked of their sources.
    loads: u64,
    // The loads that the sources of the case were asked for.
    asked: u64,
    // The pages drawn.
    drawn: u64,
}

/// n workers over these files.
pub fn some_workers<'a>(
    alloc: Global,
    library: &'a Library,
    failures: &'a Failures,
    count: usize,
) -> Result<Vec<Worker<Fonts<'a>>>, NoMemory>
    ensures count { IfOk result (λ workers. length workers.items ≡ count) }
    ensures unused { IfOk result (λ workers. (k : ℕ) (d : _) → k < count
        → IsUnused (slice_index_or workers.items k d)) }
{
    let mut workers = Vec::new(alloc);
    for _k in 0..count {
        let worker = Worker::new(alloc, Fonts::new(library, failures));
        workers.push(worker)?;
    }
    Ok(workers)
}

fn counts_of(workers: &[Worker<Fonts<'_>>], history: &[Entry]) -> Counts {
    let mut asked = 0u64;
    for worker in workers {
        asked = asked.saturating_add(worker.source.loads);
    }
    Counts {
        calls: history.len() as u64,
        loads: loads_of(workers),
        asked,
        drawn: pages_drawn(workers),
    }
}

/// Runs a case over these font files.
pub fn run<R: Threads + Wait + Sync>(
    rt: &R,
    alloc: Global,
    library: &Library,
    case: &Case,
    streams: Streams,
) -> Result<Outcome, NoMemory> {
    let count = case.workers.max(1).min(32) as usize;
    let mut workers = some_workers(alloc, library, &case.failures, count)?;
    let Streams {
        mut input,
        mut output,
        mut notes,
    } = streams;
    let mut history = Vec::new(alloc);
    let status = dvipbm_run(
        rt,
        alloc,
        &case.words,
        &mut input,
        &mut workers,
        &mut output,
        &mut notes,
        &mut history,
    );
    Ok(Outcome {
        status,
        output,
        notes,
        counts: counts_of(&workers, &history),
        wrong: wrong_with(alloc, library, case, &workers, &history)?,
    })
}

impl Counts {
    // The count of this name.
    fn named(&self, name: &str) -> u64 {
        match name {
            "calls" => self.calls,
            "loads" => self.loads,
            "asked" => self.asked,
            _ => self.drawn,
        }
    }
}

impl Outcome {
    /// The status, the notes, the counts that the case names, what is wrong, and the pages.
    pub fn text(&self, alloc: Global, case: &Case) -> Result<String, NoMemory> {
        let mut text = format!(in alloc; "{} ", self.status)?;
        add_notes(alloc, &mut text, self.notes.bytes(), &case.note_ends)?;
        for name in case.counts.split(',') {
            if !name.is_empty() {
                let part = format!(in alloc; ", {name} {}", self.counts.named(name))?;
                text.push_str(&part)?;
            }
        }
        text.push_str(self.wrong)?;
        add_pages(alloc, &mut text, self.output.bytes())?;
        Ok(text)
    }
}
