//! Two documents, drawn one after the other by workers that keep their seats at one cache.
ghost use Rattle.std.specs.Prelude.{◌≡◌, ◌+◌, ◌<◌, ◌≤◌, All, ℕ, OnOk, length, slice_index_or};
ghost use Rattle.page_workers.specs.Seating.{IsUnused};
ghost use Rattle.overlap_tests.specs.Jobs.{DrawsOn};

use super::opening::open_cache;
use super::outcome::{Came, Job, calls_of, drawn_by, loads_of};
use dvi_run::draw_job;
use outside::{FontSource, MemOutput};
use page_draw::Sheet;
use page_index::Index;
use page_workers::{Bench, Worker, join_all, seat_all};
use std::alloc::Global;
use std::sync::Wait;
use std::test::Fail;
use std::thread::Threads;

static SHEET: Sheet = Sheet {
    width: 8,
    height: 2,
    left: 0,
    top: 1,
    tolerant: false,
};

// Draws a document of up to eight pages, and keeps room for so many pages more.
fn draw_one<R: Threads + Wait + Sync, F: FontSource + Send>(
    rt: &R,
    alloc: Global,
    workers: &mut [Worker<F>],
    bench: &Bench,
    index: &Index,
    _left: usize,
) -> Result<Job, Fail>
    requires some_worker { 1 ≤ length workers.old }
    requires few { length workers.old ≤ 32 }
    requires ready { (k : ℕ) (d : _) → k < length workers.old
        → DrawsOn F.library bench.now (8 + _left) (k + 1) (slice_index_or workers.old k d) }
    ensures still { OnOk result ((k : ℕ) (d : _) → k < length workers.new
        → DrawsOn F.library bench.now _left (k + 1) (slice_index_or workers.new k d)) }
{
    let units = index.units();
    if units != bench.units {
        return Err(Fail::from("other units"));
    }
    let pages = index.pages();
    if pages > 8 {
        return Err(Fail::from("too many pages"));
    }
    let before = loads_of(workers);
    let mut output = MemOutput::new(alloc, 5, Vec::new(alloc));
    let answer = draw_job(rt, alloc, workers, bench, index, &SHEET, &mut output);
    Ok(Job {
        answer,
        output,
        loads: loads_of(workers).saturating_sub(before),
    })
}

/// Draws two documents over a new cache of four fonts.
pub fn draw_both<R: Threads + Wait + Sync, F: FontSource + Send>(
    rt: &R,
    alloc: Global,
    workers: &mut [Worker<F>],
    documents: (&Index, &Index),
) -> Result<Came, Fail>
    requires some_worker { 1 ≤ length workers.old }
    requires few { length workers.old ≤ 32 }
    requires unused { (k : ℕ) (d : _) → k < length workers.old
        → IsUnused (slice_index_or workers.old k d) }
{
    let units = documents.0.units();
    let (cache, mut first) = open_cache(alloc, 4, 2_147_483_648, &units)?;
    let bench = Bench { cache, units };
    seat_all(&bench.cache, &mut first, workers);
    let job = draw_one(rt, alloc, workers, &bench, documents.0, 8)?;
    let later_job = draw_one(rt, alloc, workers, &bench, documents.1, 0)?;
    join_all(&bench.cache, &mut first, workers);
    let Bench { cache, units: _ } = bench;
    Ok(Came {
        job,
        later_job,
        drawn: drawn_by(workers),
        calls: calls_of(&cache.close(first)),
    })
}
