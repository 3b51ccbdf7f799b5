//! The seats of a round's workers at its counter, and the pages that they claim there.
ghost use Rattle.std.specs.Prelude.{◌≡◌, ℕ, ◌+◌, ◌^◌, ◌<◌, ◌≤◌, [], ◌∷◌, ◌++◌, None, Some, length, slice_index_or};
ghost use Rattle.page_counter.specs.declared.view.SeatClaims.{SeatClaims};
ghost use Rattle.page_counter.specs.Views.{split_view};
ghost use Rattle.page_workers.specs.Claims.{ClaimedPage, GaveSeat, GotSeat, HasSeat, claims_at};
ghost use Rattle.page_workers.specs.Limits.{MAX_WORKERS};

use crate::job::PageRange;
use crate::worker::Worker;
use outside::FontSource;
use page_counter::{CounterSeat, PageCounter};

/// The pages of a round, the counter from which they are claimed, and in how many threads they are
/// drawn at most.
#[derive(Drop)]
pub struct Round {
    pub counter: PageCounter,
    pub pages: PageRange,
    pub threads: usize,
    ghost end_fits: { pages.first + pages.count < 2 ^ 64 },
    ghost some_thread: { 1 ≤ threads },
}

// Gives a worker a seat at the counter.
fn seat_one<F: FontSource>(counter: &PageCounter, first: &mut CounterSeat, worker: &mut Worker<F>)
    requires counter { first.old.counter ≡ counter.now }
    requires number { first.old.view.number ≡ 0 }
    requires room { first.old.view.made < 33 }
    ensures counter { first.new.counter ≡ first.old.counter }
    ensures first { first.new.view ≡ split_view first.old.view }
    ensures got { GotSeat counter.now worker.old worker.new }
{
    worker.counter = Some(counter.split(first));
}

/// Gives each worker a seat at the counter that has claimed nothing. It takes no memory.
pub fn seat_at_counter<F: FontSource>(
    counter: &PageCounter,
    first: &mut CounterSeat,
    workers: &mut [Worker<F>],
)
    requires counter { first.old.counter ≡ counter.now }
    requires number { first.old.view.number ≡ 0 }
    requires made { first.old.view.made ≡ 1 }
    requires few { length workers.old ≤ MAX_WORKERS }
    ensures counter { first.new.counter ≡ first.old.counter }
    ensures same { (first.new.view.number ≡ 0) × (first.new.view.claims ≡ first.old.view.claims)
        × (first.new.view.joined ≡ first.old.view.joined) }
    ensures made { first.new.view.made ≡ length workers.old + 1 }
    ensures got { (k : ℕ) (d : _) → k < length workers.old → GotSeat counter.now
        (slice_index_or workers.old k d) (slice_index_or workers.new k d) }
{
    for k in 0..workers.len() {
        seat_one(counter, first, &mut workers[k]);
    }
}

/// Claims the next page of a round for a worker. `None` means that the round has no further page.
/// It takes no memory.
pub fn claim_page<F: FontSource>(worker: &mut Worker<F>, round: &Round) -> Option<usize>
    requires seated { HasSeat round.now.counter worker.old }
    requires few { length (claims_at worker.old.counter) < 64 }
    ensures { ClaimedPage round.now.pages.first round.now.pages.count result worker.old worker.new }
{
    let Some(seat) = &mut worker.counter else {
        unreachable!()
    };
    let claim = round.counter.claim(seat);
    if claim < round.pages.count as u64 {
        Some(round.pages.first + claim as usize)
    } else {
        None
    }
}

// Takes in a worker's seat at the counter.
fn join_one<F: FontSource>(counter: &PageCounter, first: &mut CounterSeat, worker: &mut Worker<F>)
    requires counter { first.old.counter ≡ counter.now }
    requires number { first.old.view.number ≡ 0 }
    requires seated { HasSeat counter.now worker.old }
    ensures counter { first.new.counter ≡ first.old.counter }
    ensures same { (first.new.view.number ≡ 0) × (first.new.view.claims ≡ first.old.view.claims)
        × (first.new.view.made ≡ first.old.view.made) }
    ensures joined { (taken : SeatClaims)
        × (first.new.view.joined ≡ first.old.view.joined ++ taken ∷ [])
        × GaveSeat taken worker.old worker.new }
{
    let Some(seat) = worker.counter.take() else {
        unreachable!()
    };
    counter.join(first, seat);
}

/// Joins the seats of all workers at the counter to seat 0, in their order. Seat 0 keeps their
/// claims. It takes no memory.
pub fn join_at_counter<F: FontSource>(
    counter: &PageCounter,
    first: &mut CounterSeat,
    workers: &mut [Worker<F>],
)
    requires counter { first.old.counter ≡ counter.now }
    requires number { first.old.view.number ≡ 0 }
    requires joined { first.old.view.joined ≡ [] }
    requires seated { (k : ℕ) (d : _) → k < length workers.old
        → HasSeat counter.now (slice_index_or workers.old k d) }
    ensures counter { first.new.counter ≡ first.old.counter }
    ensures same { (first.new.view.number ≡ 0) × (first.new.view.claims ≡ first.old.view.claims)
        × (first.new.view.made ≡ first.old.view.made) }
    ensures joined { length first.new.view.joined ≡ length workers.old }
    ensures gave { (k : ℕ) (d : _) (e : _) → k < length workers.old
        → GaveSeat (slice_index_or first.new.view.joined k e)
        (slice_index_or workers.old k d) (slice_index_or workers.new k d) }
{
    for k in 0..workers.len() {
        join_one(counter, first, &mut workers[k]);
    }
}
