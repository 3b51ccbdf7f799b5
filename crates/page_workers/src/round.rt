//! A round: some pages, drawn by all workers at once, each in a thread of its own.
ghost use Rattle.std.specs.Prelude.{◌≡◌, ℕ, ◌+◌, ◌<◌, ◌≤◌, [], None, Some, length, slice_index_or, OnOk, OnErr};
ghost use Rattle.page_index.specs.Document.{pages_begun};
ghost use Rattle.page_index.specs.Pages.{document_units};
ghost use Rattle.page_draw.specs.Sheets.{IsDrawable};
ghost use Rattle.page_workers.specs.Rounds.{DrewRound, MayDraw, DrewNothing};
ghost use Rattle.page_workers.specs.Seats.{HoldsNoClaim};
ghost use Rattle.page_workers.specs.Claims.{HasRoom, DrewNothingAtCounter, MayTakePart, TookPart};
ghost use Rattle.page_workers.specs.SparePages.{HasNoMoreSparePages};
ghost use Rattle.page_workers.specs.Limits as limits;

use crate::Bench;
use crate::claiming::{Round, join_at_counter, seat_at_counter};
use crate::drawing::take_part;
use crate::job::{Job, PageRange};
use crate::worker::Worker;
use font_decode::Desk;
use outside::FontSource;
use page_counter::PageCounter;
use page_draw::Sheet;
use page_index::Index;
use std::alloc::{AllocError as NoMemory, Global};
use std::sync::Wait;
use std::thread;
use std::thread::Threads;

/// The most workers of a run.
pub const MAX_WORKERS: usize = 32;

// Takes room for n results and pages more.
fn reserve<F: FontSource>(worker: &mut Worker<F>, count: usize) -> Result<(), NoMemory>
    ensures kept { DrewNothingAtCounter worker.old worker.new }
    ensures room { OnOk result (HasRoom count worker.new) }
{
    worker.results.reserve(count)?;
    worker.pages.reserve(count)?;
    Ok(())
}

// Takes room for n results and pages more of each worker.
pub(crate) fn reserve_all<F: FontSource>(
    workers: &mut [Worker<F>],
    count: usize,
) -> Result<(), NoMemory>
    ensures kept { (k : ℕ) (d : _) → k < length workers.old
        → DrewNothingAtCounter (slice_index_or workers.old k d) (slice_index_or workers.new k d) }
    ensures room { OnOk result ((k : ℕ) (d : _) → k < length workers.old
        → HasRoom count (slice_index_or workers.new k d)) }
{
    for j in 0..workers.len() {
        reserve(&mut workers[j], count)?;
    }
    Ok(())
}

/// Draws a round: `count` pages from `first` on, counted from 0, and fewer only where one of them
/// has no bitmap. Each worker, in a thread of its own where one can be made, claims the next page,
/// draws it and claims again, until the round has no further page or one of its own has no bitmap.
/// So each page that was drawn was drawn by one worker, once. The worker has its results in the
/// order of their pages, and its `pages` grew by these. What stopped a page is in its result: a
/// fault of the page or of its source, or that memory ran out. `NoMemory` of the call itself comes
/// before any page is begun, and changes nothing of a worker but the capacity of its lists.
/// Whatever its pages came to, no worker's seat holds a claim afterwards, and no worker has more
/// spare pages than before.
pub fn draw_round<R: Threads + Wait + Sync, F: FontSource + Send>(
    rt: &R,
    alloc: Global,
    workers: &mut [Worker<F>],
    bench: &Bench,
    index: &Index,
    sheet: &Sheet,
    first: usize,
    count: usize,
) -> Result<(), NoMemory>
    requires some_worker { 1 ≤ length workers.old }
    requires few_workers { length workers.old ≤ limits.MAX_WORKERS }
    requires some_page { 1 ≤ count }
    requires few_pages { count ≤ 32 }
    requires inside { first + count ≤ pages_begun index.now.reading }
    requires sheet { IsDrawable sheet.now }
    requires units { document_units index.now.res index.now.reading ≡ Some bench.now.units }
    requires ready { (k : ℕ) (d : _) → k < length workers.old
        → MayDraw F.library bench.now count (slice_index_or workers.old k d) }
    ensures drawn { OnOk result (DrewRound F.library F.faults F.loads bench.now index.now sheet.now
        first count workers.old workers.new) }
    ensures refused { OnErr result ((k : ℕ) (d : _) → k < length workers.old
        → DrewNothing (slice_index_or workers.old k d) (slice_index_or workers.new k d)) }
    ensures no_counter { (k : ℕ) (d : _) → k < length workers.old
        → (slice_index_or workers.new k d).counter ≡ None }
    ensures no_claim { (k : ℕ) (d : _) → k < length workers.old
        → HoldsNoClaim (slice_index_or workers.new k d).seat }
    ensures fewer { (k : ℕ) (d : _) → k < length workers.old
        → HasNoMoreSparePages (slice_index_or workers.old k d) (slice_index_or workers.new k d) }
{
    prove!(count <= index.pages() - first);
    reserve_all(workers, count)?;
    let (counter, mut seat) = PageCounter::make(alloc)?;
    let job = Job {
        bench,
        index,
        sheet,
    };
    let round = Round {
        counter,
        pages: PageRange { first, count },
        threads: MAX_WORKERS,
    };
    seat_at_counter(&round.counter, &mut seat, workers);
    thread::for_each_mut(
        rt,
        workers,
        round.threads,
        &|_, worker: &mut Worker<F>|
            requires { (round.pages.first + round.pages.count ≤ pages_begun job.index.now.reading)
                × MayTakePart F.library job.bench.now round.counter round.pages.count worker.old }
            ensures { TookPart F.library F.faults F.loads job.entry.bench.now job.entry.index.now
                job.entry.sheet.now round.counter round.pages.first round.pages.count
                worker.old worker.new }
        { take_part(rt, alloc, worker, &job, &round) },
    );
    let Round { counter, .. } = round;
    join_at_counter(&counter, &mut seat, workers);
    counter.close(seat);
    Ok(())
}
