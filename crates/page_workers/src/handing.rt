//! A round whose results are handed on while it is drawn.
ghost use Rattle.std.specs.Prelude.{◌≡◌, ℕ, ◌+◌, ◌<◌, ◌≤◌, List, [], None, Some, length, slice_index_or, OnOk, OnErr, vec_len, vec_capacity};
ghost use Rattle.rtrb.specs.Ring.{sent, received};
ghost use Rattle.page_index.specs.Document.{pages_begun};
ghost use Rattle.page_counter.specs.Views.{first_view};
ghost use Rattle.vf_expand.specs.Limits.{MAX_FLAT_COMMANDS};
ghost use Rattle.page_workers.specs.declared.worker.PageResult.{PageResult};
ghost use Rattle.page_workers.specs.declared.rings.Outlet.{Outlet};
ghost use Rattle.page_workers.specs.Seats.{BenchFits, HoldsNoClaim, room_at};
ghost use Rattle.page_workers.specs.Rounds.{MayDraw, DrewNothing};
ghost use Rattle.page_workers.specs.Claims.{HasRoom, MayTakePart};
ghost use Rattle.page_workers.specs.Handing.{AreNewlyLinked, HandedRound, HasOutlet, TookEach, TookSome};
ghost use Rattle.page_workers.specs.HandedParts.{HandedNext, HandedPart, HandedParts, MayHandParts};
ghost use Rattle.page_workers.specs.SparePages.{spare_pages_kept};
ghost use Rattle.page_workers.specs.Limits as limits;

use crate::bells::Bells;
use crate::claiming::{Round, claim_page, join_at_counter, seat_at_counter};
use crate::drawing::draw_page;
use crate::job::{Job, PageRange};
use crate::rings::{Inlet, close_rings, open_rings};
use crate::round::reserve_all;
use crate::spare_pages::trim_spare_pages;
use crate::taking::{PageTaker, take_meanwhile, take_rest};
use crate::threads::{drawing_threads, drawn_alone};
use crate::worker::Worker;
use font_decode::Desk;
use outside::FontSource;
use page_counter::{CounterSeat, PageCounter};
use std::alloc::{AllocError as NoMemory, Global};
use std::sync::Wait;
use std::thread;
use std::thread::Threads;

// Draws a page and hands its result on, and answers whether it has a bitmap. Then it waits until
// there is room for another page, so that a worker claims none while it has no room.
fn hand_page<R: Wait, F: FontSource>(
    rt: &R,
    alloc: Global,
    worker: &mut Worker<F>,
    job: &Job,
    page: usize,
    bells: &Bells,
) -> bool
    requires page { page < pages_begun job.now.index.now.reading }
    requires fits { BenchFits (F.library worker.old.source) job.now.bench.now worker.old.seat }
    requires look_ups { MAX_FLAT_COMMANDS ≤ room_at worker.old.loads worker.old.seat }
    requires space { vec_len worker.old.pages + 1 ≤ vec_capacity worker.old.pages }
    requires outlet { HasOutlet 1 worker.old }
    ensures drew { HandedNext F.library F.faults F.loads job.now.bench.now job.now.index.now
        job.now.sheet.now page result worker.old worker.new }
    ensures outlet { (n : ℕ) → HasOutlet (n + 1) worker.old → HasOutlet n worker.new }
{
    let has_bitmap = draw_page(rt, alloc, worker, job, page);
    worker.hand_on(bells);
    worker.wait_for_room(rt, bells);
    has_bitmap
}

// Draws the pages that the worker claims and hands their results on, until the round has no further
// page or one of its own has no bitmap.
fn hand_part<R: Wait, F: FontSource>(
    rt: &R,
    alloc: Global,
    worker: &mut Worker<F>,
    job: &Job,
    round: &Round,
    bells: &Bells,
)
    requires inside { round.now.pages.first + round.now.pages.count
        ≤ pages_begun job.now.index.now.reading }
    requires ready { MayTakePart F.library job.now.bench.now round.now.counter round.now.pages.count
        worker.old }
    requires outlet { HasOutlet round.now.pages.count worker.old }
    requires unsent { (o : Outlet) → worker.old.outlet ≡ Some o → sent o.results ≡ [] }
    ensures { HandedPart F.library F.faults F.loads job.now.bench.now job.now.index.now
        job.now.sheet.now round.now.counter round.now.pages.first round.now.pages.count
        worker.old worker.new }
{
    while let Some(page) = claim_page(worker, round) {
        if !hand_page(rt, alloc, worker, job, page, bells) {
            return;
        }
    }
}

// Has all workers draw their parts, in at most n threads.
fn hand_parts<R: Threads + Wait + Sync, F: FontSource + Send>(
    rt: &R,
    alloc: Global,
    workers: &mut [Worker<F>],
    job: &Job,
    round: &Round,
    threads: usize,
    bells: &Bells,
)
    requires threads { 1 ≤ threads }
    requires ready { MayHandParts F.library job.now.bench.now job.now.index.now round.now.counter
        round.now.pages.first round.now.pages.count workers.old }
    ensures { HandedParts F.library F.faults F.loads job.now.bench.now job.now.index.now
        job.now.sheet.now round.now.counter round.now.pages.first round.now.pages.count
        workers.old workers.new }
{
    bells.begin();
    thread::for_each_mut(
        rt,
        workers,
        threads,
        &|_, worker: &mut Worker<F>|
            requires { (round.now.pages.first + round.now.pages.count
                ≤ pages_begun job.now.index.now.reading)
                × MayTakePart F.library job.now.bench.now round.now.counter round.now.pages.count
                worker.old
                × HasOutlet round.now.pages.count worker.old
                × ((o : Outlet) → worker.old.outlet ≡ Some o → sent o.results ≡ []) }
            ensures { HandedPart F.library F.faults F.loads job.entry.now.bench.now
                job.entry.now.index.now job.entry.now.sheet.now round.entry.now.counter
                round.entry.now.pages.first round.entry.now.pages.count worker.old worker.new }
        { hand_part(rt, alloc, worker, job, round, bells) },
    );
    bells.end();
}

/// Draws a round as `draw_round` does, and hands each result to `taker`, in the order of the pages,
/// with the output: as soon as it and those before it are there, in the caller's thread, while the
/// others are drawn. There are at most 16 pages at once, with more than eight workers at most 32: a
/// worker that has its share of them on their way waits until the taker gives one back. With one
/// worker, where the pages are small and load no font, and where no thread can be made, the results
/// are taken when all are drawn. No worker has a result afterwards, and the workers keep the memory
/// of at most 32 pages. `NoMemory` comes before any page is begun.
pub fn hand_round<R: Threads + Wait + Sync, F: FontSource + Send, W: PageTaker<O>, O>(
    rt: &R,
    alloc: Global,
    workers: &mut [Worker<F>],
    job: &Job,
    pages: PageRange,
    taker: &mut W,
    out: &mut O,
) -> Result<(), NoMemory>
    requires some_worker { 1 ≤ length workers.old }
    requires few_workers { length workers.old ≤ limits.MAX_WORKERS }
    requires inside { pages.first + pages.count ≤ pages_begun job.now.index.now.reading }
    requires ready { (k : ℕ) (d : _) → k < length workers.old
        → MayDraw F.library job.now.bench.now pages.count (slice_index_or workers.old k d) }
    ensures handed { OnOk result ((results : List PageResult)
        × HandedRound F.library F.faults F.loads job.now.bench.now job.now.index.now
        job.now.sheet.now pages.first pages.count workers.old workers.new results
        × TookEach W.takes results taker.old out.old taker.new out.new) }
    ensures refused { OnErr result (((k : ℕ) (d : _) → k < length workers.old
        → DrewNothing (slice_index_or workers.old k d) (slice_index_or workers.new k d))
        × (taker.new ≡ taker.old) × (out.new ≡ out.old)) }
    ensures no_counter { (k : ℕ) (d : _) → k < length workers.old
        → (slice_index_or workers.new k d).counter ≡ None }
    ensures no_claim { (k : ℕ) (d : _) → k < length workers.old
        → HoldsNoClaim (slice_index_or workers.new k d).seat }
    ensures kept { OnOk result ((k : ℕ) (d : _) → k < length workers.old
        → length (slice_index_or workers.new k d).spare_pages.items
        ≤ spare_pages_kept (length workers.old)) }
{
    prove!(pages.count <= job.index.pages() - pages.first);
    reserve_all(workers, pages.count)?;
    let (counter, seat) = PageCounter::make(alloc)?;
    let threads = drawing_threads(rt, workers.len());
    let round = Round {
        counter,
        pages,
        threads,
    };
    let mut inlets = open_rings(alloc, workers, &round)?;
    let opened = Opened { job, round, seat };
    hand_opened(rt, alloc, workers, opened, &mut inlets, taker, out);
    trim_spare_pages(workers);
    Ok(())
}

// A round that is to be drawn and handed on, with seat 0 of its counter.
#[derive(Drop)]
struct Opened<'a> {
    job: &'a Job<'a>,
    round: Round,
    seat: CounterSeat,
}

// Draws a round that was opened, and hands each result to the taker.
fn hand_opened<R: Threads + Wait + Sync, F: FontSource + Send, W: PageTaker<O>, O>(
    rt: &R,
    alloc: Global,
    workers: &mut [Worker<F>],
    opened: Opened,
    inlets: &mut [Inlet],
    taker: &mut W,
    out: &mut O,
)
    requires some_worker { 1 ≤ length workers.old }
    requires few_workers { length workers.old ≤ limits.MAX_WORKERS }
    requires inside { opened.round.pages.first + opened.round.pages.count
        ≤ pages_begun opened.job.now.index.now.reading }
    requires ready { (k : ℕ) (d : _) → k < length workers.old
        → MayDraw F.library opened.job.now.bench.now opened.round.pages.count
        (slice_index_or workers.old k d) }
    requires room { (k : ℕ) (d : _) → k < length workers.old
        → HasRoom opened.round.pages.count (slice_index_or workers.old k d) }
    requires rings { length inlets.old ≡ length workers.old }
    requires linked { (k : ℕ) (e : _) (d : _) → k < length workers.old
        → AreNewlyLinked opened.round.pages.count (slice_index_or workers.old k d)
        (slice_index_or inlets.old k e) }
    requires counter { opened.seat.counter ≡ opened.round.counter }
    requires seat { opened.seat.view ≡ first_view }
    ensures handed { (results : List PageResult)
        × HandedRound F.library F.faults F.loads opened.entry.job.now.bench.now
        opened.entry.job.now.index.now opened.entry.job.now.sheet.now
        opened.entry.round.pages.first opened.entry.round.pages.count
        workers.old workers.new results
        × TookEach W.takes results taker.old out.old taker.new out.new }
    ensures no_counter { (k : ℕ) (d : _) → k < length workers.old
        → (slice_index_or workers.new k d).counter ≡ None }
{
    let Opened {
        job,
        round,
        mut seat,
    } = opened;
    seat_at_counter(&round.counter, &mut seat, workers);
    let alone = drawn_alone(workers, job, &round);
    let bells = Bells::new(!alone);
    let drawing = Drawing {
        job,
        round: &round,
        alone,
        bells: &bells,
    };
    let taken = draw_and_take(rt, alloc, workers, drawing, inlets, taker, out);
    close_rings(workers, inlets, bells.is_late());
    take_rest(alloc, workers, inlets, round.pages, taken, taker, out);
    let Round { counter, .. } = round;
    join_at_counter(&counter, &mut seat, workers);
    counter.close(seat);
}

// A round, what it is drawn from, whether the caller's thread draws it alone, and its bells.
#[derive(Clone, Copy)]
struct Drawing<'a> {
    job: &'a Job<'a>,
    round: &'a Round,
    alone: bool,
    bells: &'a Bells,
}

// Has all workers draw their parts, and takes results in the meantime, unless they are drawn in
// this thread alone. Answers how many it took.
fn draw_and_take<R: Threads + Wait + Sync, F: FontSource + Send, W: PageTaker<O>, O>(
    rt: &R,
    alloc: Global,
    workers: &mut [Worker<F>],
    drawing: Drawing,
    inlets: &mut [Inlet],
    taker: &mut W,
    out: &mut O,
) -> usize
    requires ready { MayHandParts F.library drawing.job.now.bench.now drawing.job.now.index.now
        drawing.round.now.counter drawing.round.now.pages.first drawing.round.now.pages.count
        workers.old }
    requires unreceived { (k : ℕ) (d : _) → k < length inlets.old
        → received (slice_index_or inlets.old k d).results ≡ [] }
    ensures parts { HandedParts F.library F.faults F.loads drawing.entry.job.now.bench.now
        drawing.entry.job.now.index.now drawing.entry.job.now.sheet.now
        drawing.entry.round.now.counter drawing.entry.round.now.pages.first
        drawing.entry.round.now.pages.count workers.old workers.new }
    ensures most { result ≤ drawing.entry.round.now.pages.count }
    ensures took { (results : List PageResult)
        × TookSome W.takes drawing.entry.round.now.pages.first result inlets.old inlets.new
        results taker.old out.old taker.new out.new }
{
    let Drawing {
        job,
        round,
        alone,
        bells,
    } = drawing;
    if alone {
        hand_parts(rt, alloc, workers, job, round, 1, bells);
        return 0;
    }
    let pages = round.pages;
    let (_, taken) = thread::join_mut(
        rt,
        &mut ||
            requires { MayHandParts F.library job.now.bench.now job.now.index.now
                round.now.counter round.now.pages.first round.now.pages.count workers.now }
            ensures { HandedParts F.library F.faults F.loads job.entry.now.bench.now
                job.entry.now.index.now job.entry.now.sheet.now round.entry.now.counter
                round.entry.now.pages.first round.entry.now.pages.count
                workers.entry.now workers.exit.now }
        { hand_parts(rt, alloc, workers, job, round, round.threads, bells) },
        &mut || take_meanwhile(rt, alloc, inlets, pages, taker, out, bells),
    );
    taken
}
