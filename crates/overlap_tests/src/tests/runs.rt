//! Runs of two workers that go by a plan.
ghost use Rattle.std.specs.Prelude.{◌≡◌, ◌<◌, ℕ, IfOk, length, slice_index_or};
ghost use Rattle.command_line.specs.Settings.{AreSettings};
ghost use Rattle.page_workers.specs.Seating.{IsUnused};

use super::calls::{add_calls, looked_first};
use super::document::{document, library, page_count};
use super::meeting::Meeting;
use super::output::HeldOutput;
use super::source::{Held, Plan};
use cache_core::Entry;
use dvi_run::{Settings, run_with};
use outside::{Library, MemOutput, SureInput};
use page_draw::Sheet;
use page_workers::Worker;
use std::alloc::{AllocError as NoMemory, Global};
use std::sync::atomic::AtomicU32;
use std::sync::{Arc, Wait};
use std::test::Fail;
use std::thread::Threads;

// Two workers are used, and the cache keeps four fonts.
fn settings() -> Settings
    ensures allowed { AreSettings result }
    ensures two { result.workers ≡ 2 }
{
    Settings {
        res: 300,
        sheet: Sheet {
            width: 8,
            height: 2,
            left: 0,
            top: 1,
            tolerant: false,
        },
        workers: 2,
        cache: 4,
        room: 2_147_483_648,
        sample: None,
        packed: false,
        trace: false,
        summary: false,
    }
}

/// n workers whose sources go by a plan.
pub fn crew(
    alloc: Global,
    count: usize,
    begun: &Arc<AtomicU32>,
    plan: Plan,
) -> Result<Vec<Worker<Held>>, Fail>
    ensures count { IfOk result (λ workers. length workers.items ≡ count) }
    ensures unused { IfOk result (λ workers. (k : ℕ) (d : _) → k < count
        → IsUnused (slice_index_or workers.items k d)) }
{
    let library: Arc<Library> = library(alloc)?;
    let mut workers = Vec::new(alloc);
    for _k in 0..count {
        let source = Held {
            library: Arc::try_clone(&library)?,
            meeting: Meeting {
                begun: Arc::try_clone(begun)?,
            },
            plan,
            loads: 0,
            faults: 0,
        };
        let worker = Worker::new(alloc, source);
        workers.push(worker)?;
    }
    Ok(workers)
}

// What came of a run.
#[derive(Drop)]
struct Came {
    status: u8,
    output: HeldOutput,
    history: Vec<Entry>,
}

// Runs a document by two workers.
fn run<R: Threads + Wait + Sync>(
    rt: &R,
    alloc: Global,
    document: Vec<u8>,
    plan: Plan,
) -> Result<Came, Fail> {
    let begun = Arc::new(alloc, AtomicU32::new(0))?;
    let settings = settings();
    let mut input = SureInput::new(document);
    let mut workers = crew(alloc, 2, &begun, plan)?;
    let mut output = HeldOutput {
        written: Vec::new(alloc),
        meeting: Meeting { begun },
        meets: plan.output_meets,
        faults: 0,
    };
    let mut notes = MemOutput::new(alloc, 64, Vec::new(alloc));
    let mut history = Vec::new(alloc);
    let status = run_with(
        rt,
        alloc,
        &settings,
        &mut input,
        &mut workers,
        &mut output,
        &mut notes,
        &mut history,
    );
    Ok(Came {
        status,
        output,
        history,
    })
}

impl Came {
    fn text(&self, alloc: Global, plan: &Plan) -> Result<String, NoMemory> {
        let pages = page_count(self.output.bytes());
        let mut text = format!(in alloc; "{}, {pages} pages", self.status)?;
        if !plan.by_chance {
            add_calls(&mut text, &self.history)?;
            let order = if looked_first(&self.history, plan) {
                "; looked first"
            } else {
                "; filled first"
            };
            text.push_str(order)?;
        }
        Ok(text)
    }
}

/// What comes of a run over a document of these pages.
pub fn told<R: Threads + Wait + Sync>(
    rt: &R,
    alloc: Global,
    pages: &[&[u8]],
    plan: Plan,
) -> Result<String, Fail> {
    let came = run(rt, alloc, document(alloc, pages)?, plan)?;
    Ok(came.text(alloc, &plan)?)
}
