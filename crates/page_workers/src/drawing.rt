//! A worker's part of a round: the pages that it claims, one after another.
ghost use Rattle.std.specs.Prelude.{◌≡◌, ◌+◌, ◌^◌, ◌<◌, ◌≤◌, [], Some, IsErrOf, length, vec_len, vec_capacity};
ghost use Rattle.outside.specs.Counts.{HasCause};
ghost use Rattle.page_index.specs.Document.{pages_begun};
ghost use Rattle.font_decode.specs.Decoding.{IsFontOf};
ghost use Rattle.font_decode.specs.Desks.{TrailGrew};
ghost use Rattle.raster_page.specs.Ink.{page_of};
ghost use Rattle.page_draw.specs.Drawn.{IsWhole};
ghost use Rattle.page_workers.specs.Rounds.{IsOutcome, trail_of};
ghost use Rattle.page_workers.specs.PageDesks.{DrawsPage, EndsAs};
ghost use Rattle.page_workers.specs.Seats.{BenchFits, asked_at, asked_with, library_at, room_at, room_with, units_at};
ghost use Rattle.page_workers.specs.Claims.{DrewNext, HasRoom, MayTakePart, TookPart};
ghost use Rattle.vf_expand.specs.Limits.{MAX_FLAT_COMMANDS};

use crate::Bench;
use crate::claiming::{Round, claim_page};
use crate::held_fonts::HeldFonts;
use crate::job::Job;
use crate::page_desk::{PageDesk, PageStart};
use crate::settling::settle;
use crate::spare_pages::blank_page;
use crate::worker::{PageResult, Worker};
use font_decode::{Desk, DeskStop};
use outside::{FontKey, FontSource};
use page_draw::{Drawn, IndexedPage, PageStop, draw_on};
use raster_page::Page;
use std::alloc::Global;
use std::collections::VecDeque;
use std::marker::{Brand, PhantomData};
use std::mem;
use std::sync::{Arc, Wait};

// What came of a page: what it was drawn to, once the looks that are pending were noted. Where they
// can't be, or a look-up was refused before, that is why.
fn end_page<R: Wait, K: PageStart, F: FontSource>(
    rt: &R,
    alloc: Global,
    bench: &Bench,
    worker: &mut Worker<F>,
    mut pending: VecDeque<Arc<FontKey>>,
    stop: Option<DeskStop>,
    drawn: Result<Drawn, PageStop>,
) -> Result<Drawn, PageStop>
    requires draws { DrawsPage F.library F.faults F.loads K.asked K.trail K.faults bench.now
        worker.old pending.items stop }
    requires cause { HasCause K.faults (F.faults worker.old.source)
        (IsErrOf drawn PageStop.SourceFault) }
    ensures last { EndsAs drawn result (asked_with worker.old.seat pending.items)
        (asked_at worker.new.seat) }
    ensures fits { BenchFits (F.library worker.new.source) bench.now worker.new.seat }
    ensures room { room_with worker.old.loads worker.old.seat pending.items
        ≤ room_at worker.new.loads worker.new.seat }
    ensures same_library { library_at worker.new.seat ≡ library_at worker.old.seat }
    ensures same_units { units_at worker.new.seat ≡ units_at worker.old.seat }
    ensures cause { HasCause K.faults (F.faults worker.new.source)
        (IsErrOf result PageStop.SourceFault) }
    ensures trail { TrailGrew (IsWhole result) K.asked (asked_at worker.new.seat) K.trail
        (trail_of F.loads worker.new) }
{
    if let Some(stop) = stop {
        return Err(PageStop::from(stop));
    }
    settle(rt, alloc, bench, worker, &mut pending)?;
    drawn
}

// Draws a page by a worker that was lent, and gives the worker back.
fn draw_lent<'a, R: Wait, K: PageStart, F: FontSource>(
    rt: &R,
    alloc: Global,
    worker: &'a mut Worker<F>,
    job: &Job,
    page: usize,
    blank: Page,
    outcome: &mut Result<Drawn, PageStop>,
) -> &'a mut Worker<F>
    requires reference { worker.ghost_name ≡ K.reference }
    requires asked { asked_at worker.old.seat ≡ K.asked }
    requires trail { trail_of F.loads worker.old ≡ K.trail }
    requires faults { F.faults worker.old.source ≡ K.faults }
    requires page { page < pages_begun job.now.index.now.reading }
    requires fits { BenchFits (F.library worker.old.source) job.now.bench.now worker.old.seat }
    requires look_ups { MAX_FLAT_COMMANDS ≤ room_at worker.old.loads worker.old.seat }
    requires blank { blank ≡ page_of job.now.sheet.now.width job.now.sheet.now.height [] }
    ensures back { result.ghost_name ≡ worker.entry.ghost_name }
    ensures value { IsOutcome (IsFontOf (library_at worker.old.seat) (units_at worker.old.seat))
        job.now.index.now job.now.sheet.now page outcome.new
        (asked_at worker.old.seat) (asked_at result.now.seat) }
    ensures fits { BenchFits (F.library result.now.source) job.now.bench.now result.now.seat }
    ensures room { room_at worker.old.loads worker.old.seat
        ≤ room_at result.now.loads result.now.seat + MAX_FLAT_COMMANDS }
    ensures same_library { library_at result.now.seat ≡ library_at worker.old.seat }
    ensures same_units { units_at result.now.seat ≡ units_at worker.old.seat }
    ensures cause { HasCause (F.faults worker.old.source) (F.faults result.now.source)
        (IsErrOf outcome.new PageStop.SourceFault) }
    ensures trail { TrailGrew (IsWhole outcome.new) (asked_at worker.old.seat)
        (asked_at result.now.seat) (trail_of F.loads worker.old) (trail_of F.loads result.now) }
{
    let mut desk = PageDesk::<F, K> {
        worker,
        held: HeldFonts::new(alloc),
        pending: VecDeque::new(alloc),
        stop: None,
        of: PhantomData,
    };
    let wanted = IndexedPage {
        index: job.index,
        number: page,
    };
    let drawn = draw_on(rt, alloc, &mut desk, job.bench, wanted, job.sheet, blank);
    let PageDesk {
        worker,
        held: _,
        pending,
        stop,
        of: _,
    } = desk;
    *outcome = end_page::<R, K, F>(rt, alloc, job.bench, worker, pending, stop, drawn);
    worker
}

// Draws a page on one of the spare pages, or on a new one.
fn draw_on_spare_page<R: Wait, F: FontSource>(
    rt: &R,
    alloc: Global,
    worker: &mut Worker<F>,
    spare_pages: &mut Vec<Page>,
    job: &Job,
    page: usize,
) -> Result<Drawn, PageStop>
    requires page { page < pages_begun job.now.index.now.reading }
    requires fits { BenchFits (F.library worker.old.source) job.now.bench.now worker.old.seat }
    requires look_ups { MAX_FLAT_COMMANDS ≤ room_at worker.old.loads worker.old.seat }
    ensures value { IsOutcome (IsFontOf (library_at worker.old.seat) (units_at worker.old.seat))
        job.now.index.now job.now.sheet.now page result
        (asked_at worker.old.seat) (asked_at worker.new.seat) }
    ensures fits { BenchFits (F.library worker.new.source) job.now.bench.now worker.new.seat }
    ensures room { room_at worker.old.loads worker.old.seat
        ≤ room_at worker.new.loads worker.new.seat + MAX_FLAT_COMMANDS }
    ensures same_library { library_at worker.new.seat ≡ library_at worker.old.seat }
    ensures same_units { units_at worker.new.seat ≡ units_at worker.old.seat }
    ensures cause { HasCause (F.faults worker.old.source) (F.faults worker.new.source)
        (IsErrOf result PageStop.SourceFault) }
    ensures trail { TrailGrew (IsWhole result) (asked_at worker.old.seat)
        (asked_at worker.new.seat) (trail_of F.loads worker.old) (trail_of F.loads worker.new) }
    ensures fewer { length spare_pages.new.items ≤ length spare_pages.old.items }
{
    let blank = blank_page(alloc, spare_pages, job.sheet)?;
    let mut outcome = Err(PageStop::NoMemory);
    draw_lent::<R, Brand, F>(rt, alloc, worker, job, page, blank, &mut outcome);
    outcome
}

// Draws a page, and answers whether it has a bitmap. The results, the pages, the spare pages and
// the seat at the round's counter are kept out of the worker in the meantime, since drawing says
// nothing of them.
pub(crate) fn draw_page<R: Wait, F: FontSource>(
    rt: &R,
    alloc: Global,
    worker: &mut Worker<F>,
    job: &Job,
    page: usize,
) -> bool
    requires page { page < pages_begun job.now.index.now.reading }
    requires fits { BenchFits (F.library worker.old.source) job.now.bench.now worker.old.seat }
    requires look_ups { MAX_FLAT_COMMANDS ≤ room_at worker.old.loads worker.old.seat }
    requires space { HasRoom 1 worker.old }
    ensures drew { DrewNext F.library F.faults F.loads job.now.bench.now job.now.index.now
        job.now.sheet.now page result worker.old worker.new }
    ensures outlet { worker.new.outlet ≡ worker.old.outlet }
    ensures results_room { (vec_len worker.new.results ≡ vec_len worker.old.results + 1)
        × (vec_capacity worker.new.results ≡ vec_capacity worker.old.results) }
    ensures pages_room { (vec_len worker.new.pages ≡ vec_len worker.old.pages + 1)
        × (vec_capacity worker.new.pages ≡ vec_capacity worker.old.pages) }
{
    let counter = worker.counter.take();
    let outlet = worker.outlet.take();
    let mut results = mem::replace(&mut worker.results, Vec::new(alloc));
    let mut pages = mem::replace(&mut worker.pages, Vec::new(alloc));
    let mut spare_pages = mem::replace(&mut worker.spare_pages, Vec::new(alloc));
    let outcome = draw_on_spare_page(rt, alloc, worker, &mut spare_pages, job, page);
    let has_bitmap = outcome.is_ok();
    results.push_reserved(PageResult { page, outcome });
    pages.push_reserved(page);
    worker.results = results;
    worker.pages = pages;
    worker.spare_pages = spare_pages;
    worker.counter = counter;
    worker.outlet = outlet;
    has_bitmap
}

/// Draws the pages that the worker claims, until the round has no further page or one of its own
/// has no bitmap.
pub fn take_part<R: Wait, F: FontSource>(
    rt: &R,
    alloc: Global,
    worker: &mut Worker<F>,
    job: &Job,
    round: &Round,
)
    requires inside { round.now.pages.first + round.now.pages.count
        ≤ pages_begun job.now.index.now.reading }
    requires ready { MayTakePart F.library job.now.bench.now round.now.counter round.now.pages.count
        worker.old }
    ensures { TookPart F.library F.faults F.loads job.now.bench.now job.now.index.now
        job.now.sheet.now round.now.counter round.now.pages.first round.now.pages.count
        worker.old worker.new }
{
    while let Some(page) = claim_page(worker, round) {
        if !draw_page(rt, alloc, worker, job, page) {
            return;
        }
    }
}
