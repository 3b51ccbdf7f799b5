//! How seats of a lock wait: they look for a short time, and then sleep. No contract rests on it.
use crate::TurnLock;
use crate::lock::{SERVING, TICKET};
use cache_core::Told;
use std::sync::Wait;

// How often a seat without a ticket looks whether nobody has the turn, before it sleeps. All looks
// take a few microseconds, as much as to sleep and be woken, and many times what a turn takes.
const LOOKS: u32 = 100;

// How often it does both before it draws a ticket all the same.
const SLEEPS: u32 = 3;

/// How often a seat with a ticket looks whether it is served, before it sleeps.
pub(crate) const LOOKS_IN_LINE: u32 = 100;

// The longest time between two looks is that of 2 to this power of loads.
const MAX_PAUSE: u32 = 6;

impl<T: Told> TurnLock<T> {
    /// Lets some time pass after n looks: each time twice as much, up to a limit. It is spent in
    /// loads of a number that seldom changes, since `hint::spin_loop` takes ten cycles of one
    /// processor and 140 of another, and nothing where a compiler leaves it out.
    pub(crate) fn pause(&self, looks: u32) {
        for _ in 0..1u32 << looks.min(MAX_PAUSE) {
            self.sleepers.count();
        }
    }

    // Whether a seat has the turn, or waits in line.
    pub(crate) fn is_taken(&self) -> bool {
        let shared = &self.table.shared;
        let next = shared.peek(TICKET);
        next > shared.peek(SERVING)
    }

    /// Whether nobody has the turn, waits in line or sleeps, as it was at some time in the call.
    pub fn is_idle(&self) -> bool {
        !self.is_taken() && self.sleepers.are_none()
    }

    /// How many seats sleep, or are about to, as it was at some time in the call.
    pub fn sleeping(&self) -> u64 {
        self.sleepers.count()
    }

    // Looks for a short time whether nobody has the turn.
    fn is_free_soon(&self) -> bool {
        for looks in 0..LOOKS {
            if !self.is_taken() {
                return true;
            }
            self.pause(looks);
        }
        false
    }

    // Before it draws, a seat waits until nobody has the turn, so that the line is short and its
    // seats are awake.
    pub(crate) fn approach<R: Wait>(&self, rt: &R) {
        for _ in 0..SLEEPS {
            if self.is_free_soon() {
                return;
            }
            self.sleepers.announce();
            if self.is_taken() {
                self.sleepers.sleep_until_called(rt);
            }
            self.sleepers.come();
        }
    }

    // Sleeps until the ticket is served, or less long.
    pub(crate) fn sleep_in_line<R: Wait>(&self, rt: &R, ticket: u64) {
        self.sleepers.announce();
        self.sleepers.mark(ticket);
        if self.table.shared.peek(SERVING) != ticket {
            self.sleepers.sleep_at(rt, ticket);
        }
        self.sleepers.leave();
    }

    // Wakes who can go on, now that this ticket is served.
    pub(crate) fn wake(&self, ticket: u64) {
        if self.sleepers.are_none() {
            return;
        }
        self.sleepers.wake(ticket);
        if !self.is_taken() {
            self.sleepers.call();
        }
    }
}
