//! The jobs are drawn, one cache after another.
ghost use Rattle.std.specs.Prelude.{◌≡◌, ◌≢◌, ◌<◌, ◌≤◌, ◌+◌, ◌^◌, [], ℕ, Option, Some, None, IfSome, IsTrue, MatchOption, length, slice_index_or};
ghost use Rattle.outside.specs.Library.{FileTable};
ghost use Rattle.cache_core.specs.Histories.{own};
ghost use Rattle.cache_core.specs.Laws.{FewClaims};
ghost use Rattle.cache_core.specs.Machine.{Legal};
ghost use Rattle.cache_core.specs.States.{limits_of};
ghost use Rattle.cache_core.specs.Views.{calls_of};
ghost use Rattle.turn_lock.specs.declared.view.Stage.TheVariants.{Idle};
ghost use Rattle.turn_lock.specs.Histories.{AllMade};
ghost use Rattle.turn_lock.specs.Seats.{AllJoined};
ghost use Rattle.command_line.specs.Settings.{AreSettings};
ghost use Rattle.pixel_round.specs.Preamble.{AreUnits};
ghost use Rattle.page_index.specs.Pages.{document_units};
ghost use Rattle.page_draw.specs.Sheets.{IsDrawable};
ghost use Rattle.font_decode.specs.Desks.{misses};
ghost use Rattle.page_workers.specs.Limits.{MAX_WORKERS};
ghost use Rattle.page_workers.specs.Rounds.{MayDraw};
ghost use Rattle.page_workers.specs.Seats.{library_at};
ghost use Rattle.dvi_run.specs.CacheLimits.{cache_limits};
ghost use Rattle.dvi_run.specs.Pages.{setup_with};
ghost use Rattle.job_spool.specs.Caches.{KeepsCache};
ghost use Rattle.job_spool.specs.Drawn.{AreFor, AreUndrawn, DrewOne, LeftAlone, SharersDrew, drawing_with};
ghost use Rattle.job_spool.specs.Sharing.{caches_of, document_at, pages_in, units_in};
ghost use Rattle.job_spool.specs.Sums.{sum_below};
ghost use Rattle.job_spool.specs.Workers.{FewSourceEnds, IsResting, IsSeated};

use crate::job::Job;
use crate::plan::Plan;
use cache_core::Entry;
use dvi_run::{bench_with, draw_job, open_cache};
use font_cache::CacheSeat;
use font_decode::Decoded;
use outside::{FontSource, Input, Output};
use page_draw::Sheet;
use page_index::Index;
use page_workers::{Bench, Worker, drop_spare_pages, join_all, seat_all};
use pixel_round::Units;
use std::alloc::Global;
use std::sync::Wait;
use std::thread::Threads;

// So many loads no run comes to: there is room to count those of one cache more.
const MANY_LOADS: u64 = 0x2000_0000_0000_0000;

// Draws a job, where it has a document, whose units are those of the bench.
fn draw_one<R: Threads + Wait + Sync, F: FontSource + Send, O: Output, I: Input>(
    rt: &R,
    alloc: Global,
    workers: &mut [Worker<F>],
    bench: &Bench,
    document: &Option<Index>,
    sheet: &Sheet,
    job: &mut Job<I, O>,
)
    ghost known: { Option FileTable }
    requires some_worker { 1 ≤ length workers.old }
    requires few_workers { length workers.old ≤ MAX_WORKERS }
    requires sheet { IsDrawable sheet.now }
    requires units { IfSome document.now (λ x. document_units x.res x.reading
        ≡ Some bench.now.units) }
    requires ready { (k : ℕ) (d : _) → k < length workers.old
        → MayDraw F.library bench.now (pages_in document.now) (slice_index_or workers.old k d) }
    requires library { (k : ℕ) (d : _) → k < length workers.old
        → library_at (slice_index_or workers.old k d).seat ≡ known }
    ensures { MatchOption document.now ((job.new ≡ job.old) × (workers.new ≡ workers.old))
        (λ x. DrewOne (record { library = F.library; faults = F.faults; loads = F.loads }) known
        bench.now sheet.now (record {
          left = I.left;
          taken = I.taken;
          ended = I.ended;
          reads = I.faults;
          written = O.written;
          writes = O.faults;
        }) x workers.old workers.new job.old job.new) }
{
    let Some(index) = document else {
        return;
    };
    job.status = draw_job(rt, alloc, workers, bench, index, sheet, &mut job.out);
}

// The units of a job's document.
fn units_of(document: &Option<Index>) -> Option<Units>
    ensures units { result ≡ units_in document.now }
    ensures sound { IfSome result AreUnits }
{
    match document {
        None => None,
        Some(index) => Some(index.units()),
    }
}

// Draws the jobs that share the cache of the job `first`, in their order, by workers with seats at
// its bench.
fn draw_sharers<R: Threads + Wait + Sync, F: FontSource + Send, O: Output, I: Input>(
    rt: &R,
    alloc: Global,
    plan: &Plan,
    first: usize,
    bench: &Bench,
    workers: &mut [Worker<F>],
    jobs: &mut [Job<I, O>],
)
    ghost known: { Option FileTable }
    requires some_worker { 1 ≤ length workers.old }
    requires few_workers { length workers.old ≤ MAX_WORKERS }
    requires settings { AreSettings plan.now.settings.now }
    requires caches { plan.now.caches.now ≡ caches_of plan.now.documents.now }
    requires many { length plan.now.documents.now ≡ length jobs.old }
    requires resolution { AreFor plan.now.settings.now.res plan.now.documents.now }
    requires units { units_in (document_at plan.now.documents.now first) ≡ Some bench.now.units }
    requires undrawn { AreUndrawn plan.now.documents.now first jobs.old }
    requires seated { (k : ℕ) (d : _) → k < length workers.old
        → IsSeated (record { library = F.library; faults = F.faults; loads = F.loads }) known
        bench.now (k + 1) 1000000 [] (slice_index_or workers.old k d)
        (slice_index_or workers.old k d) }
    ensures drew { (d : _) → SharersDrew (drawing_with (setup_with known plan.now.settings.now)
        (cache_limits plan.now.settings.now)
        (record { library = F.library; faults = F.faults; loads = F.loads })
        (record {
          left = I.left;
          taken = I.taken;
          ended = I.ended;
          reads = I.faults;
          written = O.written;
          writes = O.faults;
        }) jobs.old jobs.new d workers.old workers.new) known bench.now plan.now.documents.now first
        (length jobs.old) }
    ensures left_alone { LeftAlone plan.now.documents.now first jobs.old jobs.new }
    ensures history { (k : ℕ) (d : _) → (slice_index_or jobs.new k d).history
        ≡ (slice_index_or jobs.old k d).history }
    ensures few_ends { FewSourceEnds F.faults (length workers.old) (length jobs.old) workers.old
        workers.new jobs.old jobs.new }
{
    let documents = plan.documents;
    for k in 0..jobs.len() {
        if plan.caches[k] == first {
            let sheet = &plan.settings.sheet;
            draw_one(
                rt,
                alloc,
                workers,
                bench,
                &documents[k],
                sheet,
                &mut jobs[k],
            );
        }
    }
}

// Whether the loads of the workers can be counted over one cache more.
fn have_room<F: FontSource>(workers: &[Worker<F>]) -> bool
    ensures { IsTrue result → (k : ℕ) (d : _) → k < length workers.now
        → (slice_index_or workers.now k d).loads ≤ 2 ^ 61 }
{
    for worker in workers {
        if worker.loads > MANY_LOADS {
            return false;
        }
    }
    true
}

// The calls of the cache of a bench, in their order, once all workers have left it.
fn closed(bench: Bench, first: CacheSeat<Decoded>) -> Vec<Entry>
    requires lock { first.lock ≡ bench.cache }
    requires first { first.view.number ≡ 0 }
    requires idle { first.view.stage ≡ Idle }
    requires joined { AllJoined first.view }
    ensures history { calls_of result.items ≡ first.view.seen }
    ensures legal { Legal (limits_of first.view.part) (calls_of result.items) }
    ensures made { AllMade first.view.made (calls_of result.items) }
    ensures few_claims { FewClaims (calls_of result.items) }
{
    let Bench { cache, units: _ } = bench;
    cache.close(first)
}

// Draws the jobs that share the cache of the job `first`, if one begins there, over a new cache,
// whose history that job keeps. Where there is no memory for a cache none of them is drawn.
fn draw_cache<R: Threads + Wait + Sync, F: FontSource + Send, O: Output, I: Input>(
    rt: &R,
    alloc: Global,
    plan: &Plan,
    first: usize,
    workers: &mut [Worker<F>],
    jobs: &mut [Job<I, O>],
)
    ghost known: { Option FileTable }
    requires some_worker { 1 ≤ length workers.old }
    requires few_workers { length workers.old ≤ MAX_WORKERS }
    requires settings { AreSettings plan.now.settings.now }
    requires caches { plan.now.caches.now ≡ caches_of plan.now.documents.now }
    requires many { length plan.now.documents.now ≡ length jobs.old }
    requires resolution { AreFor plan.now.settings.now.res plan.now.documents.now }
    requires inside { first < length jobs.old }
    requires undrawn { AreUndrawn plan.now.documents.now first jobs.old }
    requires empty { (d : _) → (slice_index_or jobs.old first d).history.items ≡ [] }
    requires resting { (k : ℕ) (d : _) → k < length workers.old
        → IsResting (record { library = F.library; faults = F.faults; loads = F.loads }) known 0
        (slice_index_or workers.old k d) (slice_index_or workers.old k d) }
    ensures cache { (d : _) → KeepsCache (drawing_with (setup_with known plan.now.settings.now)
        (cache_limits plan.now.settings.now)
        (record { library = F.library; faults = F.faults; loads = F.loads })
        (record {
          left = I.left;
          taken = I.taken;
          ended = I.ended;
          reads = I.faults;
          written = O.written;
          writes = O.faults;
        }) jobs.old jobs.new d workers.old workers.new) plan.now.documents.now first }
    ensures left_alone { LeftAlone plan.now.documents.now first jobs.old jobs.new }
    ensures history { (k : ℕ) (d : _) → k ≢ first → (slice_index_or jobs.new k d).history
        ≡ (slice_index_or jobs.old k d).history }
    ensures few_ends { FewSourceEnds F.faults (length workers.old) (length jobs.old) workers.old
        workers.new jobs.old jobs.new }
    ensures resting { (k : ℕ) (d : _) (e : _) → k < length workers.old
        → IsResting (record { library = F.library; faults = F.faults; loads = F.loads }) known
        (misses (own (k + 1) (calls_of (slice_index_or jobs.new first e).history.items)))
        (slice_index_or workers.old k d) (slice_index_or workers.new k d) }
{
    if plan.caches[first] != first {
        return;
    }
    let documents = plan.documents;
    let Some(units) = units_of(&documents[first]) else {
        return;
    };
    if !have_room(workers) {
        return;
    }
    let opened = open_cache(
        alloc,
        plan.settings.cache as usize,
        plan.settings.room,
        &units,
    );
    let Some((bench, mut seat)) = bench_with(opened, units) else {
        return;
    };
    seat_all(&bench.cache, &mut seat, workers);
    draw_sharers(rt, alloc, plan, first, &bench, workers, jobs);
    join_all(&bench.cache, &mut seat, workers);
    drop_spare_pages(workers);
    jobs[first].history = closed(bench, seat);
}

/// Draws the jobs, one cache after another, by the first job of each.
pub fn draw_caches<R: Threads + Wait + Sync, F: FontSource + Send, O: Output, I: Input>(
    rt: &R,
    alloc: Global,
    plan: &Plan,
    workers: &mut [Worker<F>],
    jobs: &mut [Job<I, O>],
)
    ghost known: { Option FileTable }
    requires some_worker { 1 ≤ length workers.old }
    requires few_workers { length workers.old ≤ MAX_WORKERS }
    requires settings { AreSettings plan.now.settings.now }
    requires caches { plan.now.caches.now ≡ caches_of plan.now.documents.now }
    requires many { length plan.now.documents.now ≡ length jobs.old }
    requires resolution { AreFor plan.now.settings.now.res plan.now.documents.now }
    requires undrawn { (first : ℕ) → AreUndrawn plan.now.documents.now first jobs.old }
    requires empty { (k : ℕ) (d : _) → k < length jobs.old
        → (slice_index_or jobs.old k d).history.items ≡ [] }
    requires resting { (k : ℕ) (d : _) → k < length workers.old
        → IsResting (record { library = F.library; faults = F.faults; loads = F.loads }) known 0
        (slice_index_or workers.old k d) (slice_index_or workers.old k d) }
    ensures caches { (d : _) (first : ℕ) → first < length jobs.old
        → KeepsCache (drawing_with (setup_with known plan.now.settings.now)
        (cache_limits plan.now.settings.now)
        (record { library = F.library; faults = F.faults; loads = F.loads })
        (record {
          left = I.left;
          taken = I.taken;
          ended = I.ended;
          reads = I.faults;
          written = O.written;
          writes = O.faults;
        }) jobs.old jobs.new d workers.old workers.new) plan.now.documents.now first }
    ensures others { (k : ℕ) (d : _) → document_at plan.now.documents.now k ≡ None
        → slice_index_or jobs.new k d ≡ slice_index_or jobs.old k d }
    ensures input { (k : ℕ) (d : _)
        → (slice_index_or jobs.new k d).input ≡ (slice_index_or jobs.old k d).input }
    ensures few_ends { FewSourceEnds F.faults (length workers.old) (length jobs.old) workers.old
        workers.new jobs.old jobs.new }
    ensures resting { (k : ℕ) (d : _) (e : _) → k < length workers.old
        → IsResting (record { library = F.library; faults = F.faults; loads = F.loads }) known
        (sum_below (λ j.
        misses (own (k + 1) (calls_of (slice_index_or jobs.new j e).history.items)))
        (length jobs.old)) (slice_index_or workers.old k d) (slice_index_or workers.new k d) }
{
    for first in 0..jobs.len() {
        draw_cache(rt, alloc, plan, first, workers, jobs);
    }
}
