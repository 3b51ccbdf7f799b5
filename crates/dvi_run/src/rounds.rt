//! Draws the pages of a document in rounds, and writes them in their order.
ghost use Rattle.std.specs.Prelude.{◌≡◌, ℕ, ◌<◌, ◌≤◌, List, Option, None, Some, length, slice_index_or, true};
ghost use Rattle.outside.specs.Counts.{Rose};
ghost use Rattle.outside.specs.Library.{FileTable};
ghost use Rattle.page_index.specs.Document.{pages_begun};
ghost use Rattle.page_draw.specs.Values.{PageValue};
ghost use Rattle.dvi_run.specs.Pages.{AreValues};
ghost use Rattle.dvi_run.specs.Noted.{NotedLacks};
ghost use Rattle.dvi_run.specs.Outside.{change_of};
ghost use Rattle.dvi_run.specs.Endings.{EndsPages, Source, value_of_ending};
ghost use Rattle.dvi_run.specs.Looked.{EveryPageCameToItsEnd, MayBreakOff, MayWantMemory};
ghost use Rattle.dvi_run.specs.Shares.{WorkersDrewSince};
ghost use Rattle.dvi_run.specs.Tally.{TallyMatches};
ghost use Rattle.dvi_run.specs.Rounds.{AfterRounds, FailedAt, MayBegin, BetweenRounds, site};
ghost use Rattle.page_workers.specs.Limits.{MAX_WORKERS};

use crate::ending::Ending;
use crate::host::Host;
use crate::pages::{Press, ending_of_stop};
use crate::tally::Tally;
use outside::{FontSource, Output};
use page_workers::{Job, PageRange, Worker, hand_round};
use std::sync::Wait;
use std::thread::Threads;

// How many pages a round of several workers has.
const ROUND: usize = 32;

// How many pages a round has: one where there is one worker, whose pages are written as soon as
// they are drawn.
fn round_size(workers: usize) -> usize
    ensures alone { workers ≡ 1 → result ≡ 1 }
    ensures several { 2 ≤ workers → result ≡ 32 }
    ensures some { 1 ≤ result }
    ensures few { result ≤ 32 }
{
    if workers == 1 { 1 } else { ROUND }
}

// Draws the pages of a document in rounds, and has them written by a press that wrote none yet.
fn press_rounds<R: Threads + Wait + Sync, F: FontSource + Send, O: Output, N: Output>(
    host: &Host<R>,
    workers: &mut [Worker<F>],
    job: &Job,
    press: &mut Press<N>,
    out: &mut O,
) -> Ending
    ghost known: { Option FileTable }
    requires some { 1 ≤ length workers.old }
    requires few { length workers.old ≤ MAX_WORKERS }
    requires ready { (k : ℕ) (d : _) → k < length workers.old
        → MayBegin (site F.library F.faults F.loads job.now.bench.now known job.now.index.now
        job.now.sheet.now)
        (slice_index_or workers.old k d) }
    requires first { press.old.tally ≡ record { pages = 0; black = 0; noted = true } }
    requires goes_on { press.old.stopped ≡ None }
    ensures ends { (values : List PageValue)
        × AreValues
        (record { library = known; res = job.now.index.now.res; sheet = job.now.sheet.now })
        job.now.index.now.reading values
        × EndsPages (O.written out.old) (O.written out.new)
        (Rose (O.faults out.old) (O.faults out.new))
        (Unit {0}) (value_of_ending result) job.now.index.now.reading values
        × TallyMatches press.old.counted (NotedLacks (change_of N.written N.faults
        press.old.notes.now press.new.notes.now) press.new.tally.noted) (O.written out.old)
        (O.written out.new) press.new.tally
        (value_of_ending result) values }
    ensures whole { EveryPageCameToItsEnd (length workers.old) (value_of_ending result)
        → (k : ℕ) (d : _) → k < length workers.old
        → BetweenRounds (site F.library F.faults F.loads job.now.bench.now known job.now.index.now
        job.now.sheet.now)
        (slice_index_or workers.old k d) (slice_index_or workers.new k d) }
    ensures cause { (page : ℕ) → value_of_ending result ≡ Source page
        → (k : ℕ) × (k < length workers.old)
        × ((d : _) → FailedAt F.faults page (slice_index_or workers.old k d)
        (slice_index_or workers.new k d)) }
    ensures shares { WorkersDrewSince (pages_begun job.now.index.now.reading) (length workers.old)
        (value_of_ending result) (Some press.new.tally) workers.old workers.new }
    ensures workers { (k : ℕ) (d : _) → k < length workers.old
        → AfterRounds (site F.library F.faults F.loads job.now.bench.now known job.now.index.now
        job.now.sheet.now) (MayBreakOff (value_of_ending result) (Some press.new.tally))
        (MayWantMemory (length workers.old) (value_of_ending result))
        (slice_index_or workers.old k d) (slice_index_or workers.new k d) }
    ensures output { O.faults out.old ≤ O.faults out.new }
    ensures same_notes { press.new.notes.ghost_name ≡ press.old.notes.ghost_name }
{
    let pages = job.index.pages();
    let most = round_size(workers.len());
    let mut first = 0;
    while first < pages {
        let count = most.min(pages - first);
        let range = PageRange { first, count };
        if let Err(refused) = hand_round(host.rt, host.alloc, workers, job, range, press, out) {
            return ending_of_stop(press.tally.pages, refused.into());
        }
        if let Some(stop) = press.stopped.take() {
            return ending_of_stop(press.tally.pages, stop);
        }
        first += count;
    }
    Ending::Written
}

/// Draws the pages of a document in rounds, and writes them in the order of the file, up to the
/// first that can't be. A page is written as soon as it and those before it are drawn, while the
/// others of its round are, and what it lacks is noted as soon as it is written whole. The next
/// round is begun only where each page before it was written. The tally is of the pages written
/// whole, with their black pixels where they are counted. After a failed write to the notes nothing
/// more is written there.
pub fn write_rounds<R: Threads + Wait + Sync, F: FontSource + Send, O: Output, N: Output>(
    host: &Host<R>,
    workers: &mut [Worker<F>],
    job: &Job,
    out: &mut O,
    notes: &mut N,
    counted: bool,
) -> (Ending, Tally)
    ghost known: { Option FileTable }
    requires some { 1 ≤ length workers.old }
    requires few { length workers.old ≤ MAX_WORKERS }
    requires ready { (k : ℕ) (d : _) → k < length workers.old
        → MayBegin (site F.library F.faults F.loads job.now.bench.now known job.now.index.now
        job.now.sheet.now)
        (slice_index_or workers.old k d) }
    ensures ends { (values : List PageValue)
        × AreValues
        (record { library = known; res = job.now.index.now.res; sheet = job.now.sheet.now })
        job.now.index.now.reading values
        × EndsPages (O.written out.old) (O.written out.new)
        (Rose (O.faults out.old) (O.faults out.new))
        (Unit {0}) (value_of_ending result.0) job.now.index.now.reading values
        × TallyMatches counted (NotedLacks (change_of N.written N.faults notes.old notes.new)
        result.1.noted) (O.written out.old) (O.written out.new) result.1
        (value_of_ending result.0) values }
    ensures whole { EveryPageCameToItsEnd (length workers.old) (value_of_ending result.0)
        → (k : ℕ) (d : _) → k < length workers.old
        → BetweenRounds (site F.library F.faults F.loads job.now.bench.now known job.now.index.now
        job.now.sheet.now)
        (slice_index_or workers.old k d) (slice_index_or workers.new k d) }
    ensures cause { (page : ℕ) → value_of_ending result.0 ≡ Source page
        → (k : ℕ) × (k < length workers.old)
        × ((d : _) → FailedAt F.faults page (slice_index_or workers.old k d)
        (slice_index_or workers.new k d)) }
    ensures shares { WorkersDrewSince (pages_begun job.now.index.now.reading) (length workers.old)
        (value_of_ending result.0) (Some result.1) workers.old workers.new }
    ensures workers { (k : ℕ) (d : _) → k < length workers.old
        → AfterRounds (site F.library F.faults F.loads job.now.bench.now known job.now.index.now
        job.now.sheet.now) (MayBreakOff (value_of_ending result.0) (Some result.1))
        (MayWantMemory (length workers.old) (value_of_ending result.0))
        (slice_index_or workers.old k d) (slice_index_or workers.new k d) }
    ensures output { O.faults out.old ≤ O.faults out.new }
{
    let mut press = Press {
        tally: Tally {
            pages: 0,
            black: 0,
            noted: true,
        },
        counted,
        stopped: None,
        notes: &mut *notes,
    };
    let ending = press_rounds(host, workers, job, &mut press, out);
    let Press {
        tally,
        counted: _,
        stopped,
        notes: _notes,
    } = press;
    drop(stopped);
    (ending, tally)
}
