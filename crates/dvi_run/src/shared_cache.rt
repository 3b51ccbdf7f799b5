//! All pages of a document by workers that share one cache of fonts.
ghost use Rattle.std.specs.Prelude.{◌≡◌, ◌+◌, ◌<◌, ◌≤◌, [], ℕ, List, Option, None, Some, IfSome, is_some, length, slice_index_or};
ghost use Rattle.outside.specs.Counts.{Rose};
ghost use Rattle.outside.specs.Library.{FileTable};
ghost use Rattle.cache_core.specs.Histories.{own};
ghost use Rattle.cache_core.specs.Machine.{Legal};
ghost use Rattle.cache_core.specs.States.{limits_of};
ghost use Rattle.cache_core.specs.Views.{calls_of};
ghost use Rattle.cache_core.specs.Laws.{FewClaims};
ghost use Rattle.pixel_round.specs.Preamble.{AreUnits};
ghost use Rattle.page_index.specs.Document.{pages_begun};
ghost use Rattle.page_index.specs.Pages.{document_units};
ghost use Rattle.page_draw.specs.Sheets.{IsDrawable};
ghost use Rattle.page_draw.specs.Values.{PageValue};
ghost use Rattle.turn_lock.specs.Histories.{AllMade};
ghost use Rattle.turn_lock.specs.Views.{opening_view};
ghost use Rattle.dvi_run.specs.CacheLimits.{cache_limits};
ghost use Rattle.dvi_run.specs.Pages.{AreValues};
ghost use Rattle.dvi_run.specs.Noted.{NotedLacks, is_noted};
ghost use Rattle.dvi_run.specs.Outside.{change_of};
ghost use Rattle.dvi_run.specs.Endings.{EndsPages, Source, value_of_ending};
ghost use Rattle.dvi_run.specs.Looked.{EveryPageCameToItsEnd, MayBreakOff};
ghost use Rattle.dvi_run.specs.Shares.{WorkersDrew};
ghost use Rattle.dvi_run.specs.Rounds.{FailedAt, IsFresh, IsNewBench, WorkerRan};
ghost use Rattle.dvi_run.specs.Tally.{TallyMatches, TallyMatchesRun};
ghost use Rattle.page_workers.specs.Limits.{MAX_WORKERS};

use crate::ending::Ending;
use crate::host::Host;
use crate::rounds::write_rounds;
use crate::tally::Tally;
use cache_core::Entry;
use command_line::Settings;
use font_cache::CacheSeat;
use font_decode::Decoded;
use outside::{FontSource, Output};
use page_index::{Index, MAX_PAGES};
use page_workers::{Bench, Job, Worker, drop_spare_pages, join_all, seat_all};
use std::sync::Wait;
use std::thread::Threads;

/// Draws and writes the pages with a new bench and the first seat of its cache, notes what each
/// lacks, and gives the history of this cache.
pub fn draw_with_cache<R: Threads + Wait + Sync, F: FontSource + Send, O: Output, N: Output>(
    host: &Host<R>,
    settings: &Settings,
    index: &Index,
    workers: &mut [Worker<F>],
    opening: (Bench, CacheSeat<Decoded>),
    out: &mut O,
    notes: &mut N,
) -> (Ending, Tally, Vec<Entry>)
    ghost known: { Option FileTable }
    requires some { 1 ≤ length workers.old }
    requires few { length workers.old ≤ MAX_WORKERS }
    requires sheet { IsDrawable settings.now.sheet }
    requires units { document_units index.now.res index.now.reading ≡ Some opening.0.units }
    requires sound { AreUnits opening.0.units }
    requires lock { opening.1.lock ≡ opening.0.cache }
    requires opening { opening.1.view
        ≡ opening_view
        (record {
          capacity = opening.1.view.part.capacity;
          budget = opening.1.view.part.budget;
          units = opening.0.units;
          library = known;
        }) }
    requires fresh { (k : ℕ) (d : _) → k < length workers.old
        → IsFresh F.library known (slice_index_or workers.old k d) }
    ensures ends { (values : List PageValue)
        × AreValues (record { library = known; res = index.now.res; sheet = settings.now.sheet })
        index.now.reading values
        × EndsPages (O.written out.old) (O.written out.new)
        (Rose (O.faults out.old) (O.faults out.new))
        (Unit {0}) (value_of_ending result.0) index.now.reading values
        × TallyMatches settings.now.summary (NotedLacks (change_of N.written N.faults notes.old
        notes.new) result.1.noted) (O.written out.old) (O.written out.new) result.1
        (value_of_ending result.0) values }
    ensures cause { (page : ℕ) → value_of_ending result.0 ≡ Source page
        → (k : ℕ) × (k < length workers.old)
        × ((d : _) → FailedAt F.faults page (slice_index_or workers.old k d)
        (slice_index_or workers.new k d)) }
    ensures shares { WorkersDrew (pages_begun index.now.reading) (length workers.old)
        (value_of_ending result.0) (Some result.1) workers.new }
    ensures legal { Legal (limits_of opening.1.view.part) (calls_of result.2.items) }
    ensures made { AllMade (length workers.old + 1) (calls_of result.2.items) }
    ensures first { own 0 (calls_of result.2.items) ≡ [] }
    ensures few_claims { FewClaims (calls_of result.2.items) }
    ensures workers { (k : ℕ) (d : _) → k < length workers.old
        → WorkerRan (MayBreakOff (value_of_ending result.0) (Some result.1))
        (EveryPageCameToItsEnd (length workers.old) (value_of_ending result.0))
        F.library F.faults F.loads
        (record { library = known; res = index.now.res; sheet = settings.now.sheet })
        index.now.reading
        (calls_of result.2.items) (k + 1)
        (slice_index_or workers.old k d) (slice_index_or workers.new k d) }
    ensures output { O.faults out.old ≤ O.faults out.new }
{
    let sheet = &settings.sheet;
    let counted = settings.summary;
    let (bench, mut first) = opening;
    // For the proof: there is room for the look-ups of all pages.
    prove!(index.pages() <= MAX_PAGES);
    seat_all(&bench.cache, &mut first, workers);
    // The index and the sheet are lent again, for as long as the bench lives.
    let job = Job {
        bench: &bench,
        index: &*index,
        sheet: &*sheet,
    };
    let (ending, tally) = write_rounds(host, workers, &job, out, notes, counted);
    join_all(&bench.cache, &mut first, workers);
    drop_spare_pages(workers);
    let Bench { cache, units: _ } = bench;
    (ending, tally, cache.close(first))
}

/// Draws and writes the pages with a new bench and the first seat of its cache, where there was
/// memory for these, notes what each lacks, and gives the history of this cache. There is a tally
/// exactly where there is a cache.
pub fn draw_with_shared_cache<R: Threads + Wait + Sync, F: FontSource + Send, O: Output, N: Output>(
    host: &Host<R>,
    settings: &Settings,
    index: &Index,
    workers: &mut [Worker<F>],
    opening: Option<(Bench, CacheSeat<Decoded>)>,
    out: &mut O,
    notes: &mut N,
) -> (Ending, Option<Tally>, Vec<Entry>)
    ghost known: { Option FileTable }
    requires some { 1 ≤ length workers.old }
    requires few { length workers.old ≤ MAX_WORKERS }
    requires sheet { IsDrawable settings.now.sheet }
    requires opening { IfSome opening (λ made. IsNewBench (cache_limits settings.now) known
        index.now made.0 made.1) }
    requires fresh { (k : ℕ) (d : _) → k < length workers.old
        → IsFresh F.library known (slice_index_or workers.old k d) }
    requires seatless { (k : ℕ) (d : _) → k < length workers.old
        → (slice_index_or workers.old k d).seat ≡ None }
    ensures tallied { is_some result.1 ≡ is_some opening }
    ensures ends { (values : List PageValue)
        × AreValues (record { library = known; res = index.now.res; sheet = settings.now.sheet })
        index.now.reading values
        × EndsPages (O.written out.old) (O.written out.new)
        (Rose (O.faults out.old) (O.faults out.new))
        (Unit {0}) (value_of_ending result.0) index.now.reading values
        × TallyMatchesRun settings.now.summary (NotedLacks (change_of N.written N.faults notes.old
        notes.new) (is_noted result.1)) (O.written out.old) (O.written out.new)
        (calls_of result.2.items) result.1 (value_of_ending result.0) values }
    ensures cause { (page : ℕ) → value_of_ending result.0 ≡ Source page
        → (k : ℕ) × (k < length workers.old)
        × ((d : _) → FailedAt F.faults page (slice_index_or workers.old k d)
        (slice_index_or workers.new k d)) }
    ensures shares { WorkersDrew (pages_begun index.now.reading) (length workers.old)
        (value_of_ending result.0) result.1 workers.new }
    ensures legal { Legal (cache_limits settings.now) (calls_of result.2.items) }
    ensures made { AllMade (length workers.old + 1) (calls_of result.2.items) }
    ensures first { own 0 (calls_of result.2.items) ≡ [] }
    ensures few_claims { FewClaims (calls_of result.2.items) }
    ensures workers { (k : ℕ) (d : _) → k < length workers.old
        → WorkerRan (MayBreakOff (value_of_ending result.0) result.1)
        (EveryPageCameToItsEnd (length workers.old) (value_of_ending result.0))
        F.library F.faults F.loads
        (record { library = known; res = index.now.res; sheet = settings.now.sheet })
        index.now.reading
        (calls_of result.2.items) (k + 1)
        (slice_index_or workers.old k d) (slice_index_or workers.new k d) }
    ensures output { O.faults out.old ≤ O.faults out.new }
{
    let Some(opening) = opening else {
        return (Ending::Memory, None, Vec::new(host.alloc));
    };
    let (ending, tally, calls) = draw_with_cache(
        host, settings, index, workers, opening, out, notes,
    );
    (ending, Some(tally), calls)
}
