//! Results that are taken from the workers in the order of their pages.
ghost use Rattle.std.specs.Prelude.{◌≡◌, ◌⊎◌, ◌↔◌, ℕ, ◌+◌, ◌^◌, ◌<◌, ◌≤◌, List, [], ◌++◌, None, IfSome, IsTrue, length, slice_index_or};
ghost use Rattle.rtrb.specs.Ring.{received, known_items};
ghost use Rattle.page_workers.specs.declared.worker.PageResult.{PageResult};
ghost use Rattle.page_workers.specs.declared.rings.Inlet.{Inlet};
ghost use Rattle.page_workers.specs.Handing.{HasAtHead, Looked, TookHead, TookSome};
ghost use Rattle.page_workers.specs.SparePages.{SameButSparePages};

use crate::bells::Bells;
use crate::job::PageRange;
use crate::rings::Inlet;
use crate::worker::{PageResult, Worker};
use outside::FontSource;
use raster_page::Page;
use std::alloc::Global;
use std::sync::Wait;

/// Takes the results of rounds, one after another in the order of their pages.
pub trait PageTaker<O> {
    /// What taking a result does to the taker and to the output that it is given.
    ghost takes: { Self → O → PageResult → Self → O → Type 0 };

    /// Takes a result. The answer is the memory of its page, for another one.
    fn take(&mut self, alloc: Global, out: &mut O, drawn: PageResult) -> Option<Page>
        ensures { takes self.old out.old drawn self.new out.new };
}

// Whether the first result that is known to be in a ring is that of this page.
fn holds(inlet: &Inlet, page: usize) -> bool
    ensures { IsTrue result ↔ HasAtHead page (known_items inlet.now.results) }
{
    inlet.results.cached_slots() > 0 && inlet.results.peek_known().page == page
}

// In which ring the first result that is known to be there is that of this page.
fn holder(inlets: &[Inlet], page: usize) -> Option<usize>
    ensures found { IfSome result (λ k. (k < length inlets.now)
        × ((d : _) → HasAtHead page (known_items (slice_index_or inlets.now k d).results))) }
    ensures none { result ≡ None → (k : ℕ) (d : _) → k < length inlets.now
        → HasAtHead page (known_items (slice_index_or inlets.now k d).results) → ⊥ }
{
    for k in 0..inlets.len() {
        if holds(&inlets[k], page) {
            return Some(k);
        }
    }
    None
}

// Looks what is in a ring.
fn look(inlet: &mut Inlet)
    ensures { Looked inlet.old inlet.new }
{
    inlet.results.slots();
}

// Looks what is in the rings.
fn look_at_all(inlets: &mut [Inlet])
    ensures { (k : ℕ) (d : _) → k < length inlets.old
        → Looked (slice_index_or inlets.old k d) (slice_index_or inlets.new k d) }
{
    for k in 0..inlets.len() {
        look(&mut inlets[k]);
    }
}

// Waits until a ring has the result of this page as its first one, and answers which. `None` means
// that the drawing is over, and none has.
fn wait_for_page<R: Wait>(rt: &R, inlets: &mut [Inlet], page: usize, bells: &Bells) -> Option<usize>
    ensures looked { (k : ℕ) (d : _) → k < length inlets.old
        → Looked (slice_index_or inlets.old k d) (slice_index_or inlets.new k d) }
    ensures found { IfSome result (λ k. (k < length inlets.old)
        × ((d : _) → HasAtHead page (known_items (slice_index_or inlets.new k d).results))) }
{
    for _ in rt.forever() {
        let over = bells.is_over();
        bells.want(page);
        look_at_all(inlets);
        let found = holder(inlets, page);
        if over || found.is_some() {
            return found;
        }
        bells.sleep_for_page(rt, page);
    }
    unreachable!()
}

// Takes the first result that is known to be in a ring, and answers the memory of its page.
fn take_head<W: PageTaker<O>, O>(
    alloc: Global,
    inlet: &mut Inlet,
    taker: &mut W,
    out: &mut O,
) -> Option<Page>
    requires { 0 < length (known_items inlet.old.results) }
    ensures { (r : PageResult) × TookHead r inlet.old inlet.new
        × W.takes taker.old out.old r taker.new out.new }
{
    let drawn = inlet.results.pop_known();
    taker.take(alloc, out, drawn)
}

// Takes the first result that is known to be in a ring, and gives the memory of its page back.
fn take_one<W: PageTaker<O>, O>(
    alloc: Global,
    inlet: &mut Inlet,
    taker: &mut W,
    out: &mut O,
    bells: &Bells,
)
    requires { 0 < length (known_items inlet.old.results) }
    ensures { (r : PageResult) × TookHead r inlet.old inlet.new
        × W.takes taker.old out.old r taker.new out.new }
{
    let page = take_head(alloc, inlet, taker, out);
    inlet.give_back(page, bells);
}

/// Takes the results of some pages while they are drawn, and answers how many it took.
pub(crate) fn take_meanwhile<R: Wait, W: PageTaker<O>, O>(
    rt: &R,
    alloc: Global,
    inlets: &mut [Inlet],
    pages: PageRange,
    taker: &mut W,
    out: &mut O,
    bells: &Bells,
) -> usize
    requires fits { pages.first + pages.count < 2 ^ 64 }
    requires unreceived { (k : ℕ) (d : _) → k < length inlets.old
        → received (slice_index_or inlets.old k d).results ≡ [] }
    ensures most { result ≤ pages.count }
    ensures took { (results : List PageResult) × TookSome W.takes pages.first result
        inlets.old inlets.new results taker.old out.old taker.new out.new }
{
    let mut taken = 0;
    if bells.wait_for_begin(rt) {
        while taken < pages.count {
            let Some(k) = wait_for_page(rt, inlets, pages.first + taken, bells) else {
                break;
            };
            take_one(alloc, &mut inlets[k], taker, out, bells);
            taken += 1;
        }
    }
    bells.leave();
    taken
}

/// Takes those of the results that are left when all are drawn, where some were taken before. The
/// workers keep the memory. Answers how many were taken altogether.
pub(crate) fn take_rest<F: FontSource, W: PageTaker<O>, O>(
    alloc: Global,
    workers: &mut [Worker<F>],
    inlets: &mut [Inlet],
    pages: PageRange,
    before: usize,
    taker: &mut W,
    out: &mut O,
) -> usize
    requires count { length inlets.old ≡ length workers.old }
    requires most { before ≤ pages.count }
    requires fits { pages.first + pages.count < 2 ^ 64 }
    ensures same { (k : ℕ) (d : _) → k < length workers.old
        → SameButSparePages (slice_index_or workers.old k d) (slice_index_or workers.new k d) }
    ensures all { (k : ℕ) (d : _) → k < length inlets.old
        → received (slice_index_or inlets.new k d).results
        ++ known_items (slice_index_or inlets.new k d).results
        ≡ received (slice_index_or inlets.old k d).results
        ++ known_items (slice_index_or inlets.old k d).results }
    ensures took { (start : List Inlet) (w : _) (o : _) (results : List PageResult)
        → length start ≡ length inlets.old
        → TookSome W.takes pages.first before start inlets.old results w o taker.old out.old
        → (more : List PageResult) × TookSome W.takes pages.first result start inlets.new more
        w o taker.new out.new }
    ensures ended { (result ≡ pages.count) ⊎ ((k : ℕ) (d : _) → k < length inlets.old
        → HasAtHead (pages.first + result) (known_items (slice_index_or inlets.new k d).results)
        → ⊥) }
{
    let mut taken = before;
    while taken < pages.count {
        let Some(k) = holder(inlets, pages.first + taken) else {
            break;
        };
        if let Some(page) = take_head(alloc, &mut inlets[k], taker, out) {
            workers[k].give_back(page);
        }
        taken += 1;
    }
    taken
}
