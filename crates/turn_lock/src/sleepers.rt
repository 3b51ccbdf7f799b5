//! Where waiting seats sleep. No contract rests on it: whoever wakes, for whatever reason, looks
//! again.
use std::array;
use std::sync::Wait;
use std::sync::atomic::{AtomicU64, Ordering};
use std::time::Duration;

// How many places there are for seats that sleep with a ticket.
const PLACES: usize = 16;

// A wake that was lost would cost n milliseconds, and no more.
const MAX_SLEEP: u64 = 50;

/// The seats of one lock that sleep.
#[derive(Drop)]
pub(crate) struct Sleepers {
    // How many seats sleep, or are about to.
    count: AtomicU64,
    // 1 where a seat without a ticket was called, and none has come yet.
    called: AtomicU64,
    // At the place of its ticket the mark of a seat that sleeps there, else 0.
    places: [AtomicU64; PLACES],
}

// Two seats at one place have different marks, and no mark is 0.
fn mark_of(ticket: u64) -> u64 {
    ticket.wrapping_mul(2).wrapping_add(1)
}

impl Sleepers {
    // Where the ticket's seat sleeps.
    fn place(&self, ticket: u64) -> &AtomicU64 {
        &self.places[(ticket % PLACES as u64) as usize]
    }

    /// Nobody sleeps.
    pub(crate) fn new() -> Sleepers {
        Sleepers {
            count: AtomicU64::new(0),
            called: AtomicU64::new(0),
            places: array::from_fn(|_| AtomicU64::new(0)),
        }
    }

    /// How many seats sleep, or are about to.
    pub(crate) fn count(&self) -> u64 {
        self.count.load(Ordering::SeqCst)
    }

    /// Whether nobody sleeps, or is about to.
    pub(crate) fn are_none(&self) -> bool {
        self.count() == 0
    }

    /// From now on whoever hands a turn on knows of this seat, which then looks once more before it
    /// sleeps.
    pub(crate) fn announce(&self) {
        self.count.fetch_add(1, Ordering::SeqCst);
    }

    /// The seat is awake, and has a ticket.
    pub(crate) fn leave(&self) {
        self.count.fetch_sub(1, Ordering::SeqCst);
    }

    /// Sleeps without a ticket until it is called, unless somebody was called who has not come yet.
    pub(crate) fn sleep_until_called<R: Wait>(&self, rt: &R) {
        self.called
            .park_timeout(rt, 0, Duration::from_millis(MAX_SLEEP));
    }

    /// The seat is awake and has no ticket: it comes, called or not.
    pub(crate) fn come(&self) {
        self.leave();
        self.called.store(0, Ordering::SeqCst);
    }

    /// Calls one seat of those that sleep without a ticket. Whoever was called before comes first.
    pub(crate) fn call(&self) {
        if self.called.load(Ordering::SeqCst) == 0 {
            self.called.store(1, Ordering::SeqCst);
            self.called.wake_one();
        }
    }

    /// Marks the ticket's place. The seat then looks once more before it sleeps there.
    pub(crate) fn mark(&self, ticket: u64) {
        self.place(ticket).store(mark_of(ticket), Ordering::SeqCst);
    }

    /// Sleeps at the ticket's place, unless its mark is gone.
    pub(crate) fn sleep_at<R: Wait>(&self, rt: &R, ticket: u64) {
        let mark = (mark_of(ticket) % (1 << 32)) as u32;
        self.place(ticket)
            .park_timeout(rt, mark, Duration::from_millis(MAX_SLEEP));
    }

    /// Wakes those that sleep at the ticket's place.
    pub(crate) fn wake(&self, ticket: u64) {
        let place = self.place(ticket);
        if place.load(Ordering::SeqCst) != 0 {
            place.store(0, Ordering::SeqCst);
            place.wake_all();
        }
    }
}
