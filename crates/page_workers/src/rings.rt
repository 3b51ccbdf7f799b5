//! The rings between a worker and who takes its pages: one carries results, the other brings back
//! the memory of pages that were taken.
ghost use Rattle.std.specs.Prelude.{◌≡◌, ℕ, ◌+◌, ◌<◌, ◌≤◌, [], ◌∷◌, ◌++◌, Some, IfOk, length, slice_index_or};
ghost use Rattle.rtrb.specs.Ring.{sent, received, known_free, known_items, IsPair, SameProducer};
ghost use Rattle.page_workers.specs.declared.worker.PageResult.{PageResult};
ghost use Rattle.page_workers.specs.declared.rings.Outlet.{Outlet};
ghost use Rattle.page_workers.specs.Handing.{AreLinked, AreNewlyLinked, HandedOn, Looked, SendsOn, WithOutlet};
ghost use Rattle.page_workers.specs.SparePages.{SameButSparePages};

use crate::bells::Bells;
use crate::claiming::Round;
use crate::worker::{PageResult, Worker};
use outside::FontSource;
use raster_page::Page;
use rtrb::{Consumer, Producer, RingBuffer};
use std::alloc::{AllocError as NoMemory, Global};
use std::sync::Wait;

// How many pages there are at once, or two for each worker where that is more, but never more than
// the second number.
const PAGES: usize = 16;

const MOST_PAGES: usize = 32;

/// A worker's ends of its rings.
#[derive(Drop)]
pub struct Outlet {
    /// Its results go in here.
    pub results: Producer<PageResult>,
    // The memory of each result that was taken comes out here, where that had a page.
    pages: Consumer<Option<Page>>,
    // How many results were handed on whose memory isn't back.
    away: usize,
    // How many pages the worker may have.
    most: usize,
    // The worker's number, from 0.
    number: usize,
}

/// The other ends.
#[derive(Drop)]
pub struct Inlet {
    /// The worker's results come out here.
    pub results: Consumer<PageResult>,
    // The memory of each result goes back in here.
    pages: Producer<Option<Page>>,
    // The worker's number, from 0.
    number: usize,
}

// How many pages each of n workers may have in a round. Where fewer threads than workers draw, a
// worker has no more than one beyond those that it keeps for the next round.
fn most_pages(round: &Round, workers: usize) -> usize {
    let workers = workers.max(1);
    let drawing = workers.min(round.threads).max(1);
    let share = (PAGES / drawing).max(2).min((MOST_PAGES / drawing).max(1));
    share.min(MOST_PAGES / workers + 1)
}

// Whose rings are made: the worker's number, from 0, and how many pages it may have.
#[derive(Clone, Copy)]
struct Owner {
    number: usize,
    most: usize,
}

// New rings for a worker, with room for n results.
fn open_ring(alloc: Global, owner: Owner, count: usize) -> Result<(Outlet, Inlet), NoMemory>
    ensures { IfOk result (λ ends. IsPair ends.0.results ends.1.results
        × (sent ends.0.results ≡ []) × (received ends.1.results ≡ [])
        × (known_free ends.0.results ≡ count)) }
{
    let (sender, receiver) = RingBuffer::new(alloc, count)?;
    let (returner, returned) = RingBuffer::new(alloc, count)?;
    let outlet = Outlet {
        results: sender,
        pages: returned,
        away: 0,
        most: owner.most,
        number: owner.number,
    };
    let inlet = Inlet {
        results: receiver,
        pages: returner,
        number: owner.number,
    };
    Ok((outlet, inlet))
}

// Gives a worker its ends of its rings.
fn link<F: FontSource>(worker: &mut Worker<F>, outlet: Outlet)
    ensures { worker.new ≡ record worker.old { outlet = Some outlet } }
{
    worker.outlet = Some(outlet);
}

/// Gives each worker its ends of new rings, with room for the results of a round, and answers the
/// other ends.
pub(crate) fn open_rings<F: FontSource>(
    alloc: Global,
    workers: &mut [Worker<F>],
    round: &Round,
) -> Result<Vec<Inlet>, NoMemory>
    ensures same { (k : ℕ) (d : _) → k < length workers.old
        → WithOutlet (slice_index_or workers.old k d) (slice_index_or workers.new k d) }
    ensures count { IfOk result (λ inlets. length inlets.items ≡ length workers.old) }
    ensures linked { IfOk result (λ inlets. (k : ℕ) (e : _) (d : _) → k < length workers.old
        → AreNewlyLinked round.now.pages.count (slice_index_or workers.new k d)
        (slice_index_or inlets.items k e)) }
{
    let mut inlets = Vec::new(alloc);
    let most = most_pages(round, workers.len());
    for k in 0..workers.len() {
        let owner = Owner { number: k, most };
        let (outlet, inlet) = open_ring(alloc, owner, round.pages.count)?;
        inlets.push(inlet)?;
        link(&mut workers[k], outlet);
    }
    Ok(inlets)
}

impl Outlet {
    // Takes the memory that came back.
    fn take_back(&mut self, spare_pages: &mut Vec<Page>)
        ensures { self.new.results ≡ self.old.results }
    {
        for _ in 0..self.most {
            let Ok(back) = self.pages.pop() else {
                return;
            };
            self.away = self.away.saturating_sub(1);
            if let Some(page) = back {
                let _kept = spare_pages.push(page);
            }
        }
    }

    // Whether there is memory for a page, or may be new memory.
    fn has_room(&mut self, spare_pages: &mut Vec<Page>, bells: &Bells) -> bool
        ensures { self.new.results ≡ self.old.results }
    {
        self.take_back(spare_pages);
        !spare_pages.is_empty() || self.away < self.most || bells.nobody_takes()
    }

    // Waits until there is memory for a page, or may be new memory.
    fn wait_for_room<R: Wait>(&mut self, rt: &R, spare_pages: &mut Vec<Page>, bells: &Bells)
        ensures { self.new.results ≡ self.old.results }
    {
        if self.has_room(spare_pages, bells) {
            return;
        }
        for _ in rt.forever() {
            bells.want_room(self.number);
            if self.has_room(spare_pages, bells) {
                return;
            }
            bells.sleep_for_room(rt, self.number);
        }
    }

    // Hands a result on.
    fn send(&mut self, drawn: PageResult, bells: &Bells)
        requires { 1 ≤ known_free self.old.results }
        ensures ring { SameProducer self.old.results self.new.results }
        ensures sent { sent self.new.results ≡ sent self.old.results ++ drawn ∷ [] }
        ensures room { known_free self.old.results ≡ known_free self.new.results + 1 }
    {
        let page = drawn.page;
        self.results.push_reserved(drawn);
        self.away = self.away.saturating_add(1);
        bells.ring_for_page(page);
    }
}

impl Inlet {
    /// Gives the memory of a result back, where it had a page.
    pub(crate) fn give_back(&mut self, page: Option<Page>, bells: &Bells)
        ensures { self.new.results ≡ self.old.results }
    {
        let _given = self.pages.push(page);
        bells.ring_for_room(self.number);
    }
}

impl<F: FontSource> Worker<F> {
    /// Waits until there is memory for a page, or may be new memory.
    pub(crate) fn wait_for_room<R: Wait>(&mut self, rt: &R, bells: &Bells)
        ensures same { SameButSparePages self.old self.new }
        ensures outlet { SendsOn self.old.outlet self.new.outlet }
    {
        if let Some(outlet) = &mut self.outlet {
            outlet.wait_for_room(rt, &mut self.spare_pages, bells);
        }
    }

    /// Hands the result at hand on.
    pub(crate) fn hand_on(&mut self, bells: &Bells)
        requires result { (r : PageResult) × (self.old.results.items ≡ r ∷ []) }
        requires outlet { (o : Outlet) × (self.old.outlet ≡ Some o)
            × (1 ≤ known_free o.results) }
        ensures { HandedOn self.old self.new }
    {
        let Some(outlet) = &mut self.outlet else {
            unreachable!()
        };
        let Some(last) = self.results.pop() else {
            unreachable!()
        };
        outlet.send(last, bells);
    }

    // Closes the worker's ends of its rings, and keeps the memory that came back, and whether no
    // thread began to draw in time. From now on all is known that it sent.
    fn close_rings(&mut self, inlet: &mut Inlet, late: bool)
        requires { AreLinked self.old inlet.old }
        ensures same { SameButSparePages self.old self.new }
        ensures looked { Looked inlet.old inlet.new }
        ensures known { (o : Outlet) → self.old.outlet ≡ Some o
            → received inlet.new.results ++ known_items inlet.new.results ≡ sent o.results }
    {
        let Some(mut outlet) = self.outlet.take() else {
            unreachable!()
        };
        outlet.take_back(&mut self.spare_pages);
        self.no_threads = self.no_threads || late;
        inlet.results.slots_beside(&mut outlet.results);
    }
}

/// Closes all workers' ends of their rings.
pub(crate) fn close_rings<F: FontSource>(
    workers: &mut [Worker<F>],
    inlets: &mut [Inlet],
    late: bool,
)
    requires count { length inlets.old ≡ length workers.old }
    requires linked { (k : ℕ) (e : _) (d : _) → k < length workers.old
        → AreLinked (slice_index_or workers.old k d) (slice_index_or inlets.old k e) }
    ensures same { (k : ℕ) (d : _) → k < length workers.old
        → SameButSparePages (slice_index_or workers.old k d) (slice_index_or workers.new k d) }
    ensures looked { (k : ℕ) (d : _) → k < length workers.old
        → Looked (slice_index_or inlets.old k d) (slice_index_or inlets.new k d) }
    ensures known { (k : ℕ) (e : _) (d : _) (o : Outlet) → k < length workers.old
        → (slice_index_or workers.old k d).outlet ≡ Some o
        → received (slice_index_or inlets.new k e).results
        ++ known_items (slice_index_or inlets.new k e).results ≡ sent o.results }
{
    for k in 0..workers.len() {
        workers[k].close_rings(&mut inlets[k], late);
    }
}
