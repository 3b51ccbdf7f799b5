//! How the threads of a round wait for each other: who takes its pages waits for the next one, and
//! a worker for memory to draw on. No contract rests on it: whoever wakes, for whatever reason,
//! looks again.
use std::array;
use std::sync::Wait;
use std::sync::atomic::{AtomicU64, Ordering};
use std::time::Duration;

// A ring that was lost would cost n milliseconds, and no more.
const MAX_SLEEP: u64 = 50;

// How often who takes the pages sleeps while no thread has begun to draw: a second altogether. Then
// it takes it that there is no such thread, and leaves.
const SLEEPS: u32 = 20;

// For each worker there is a place.
const PLACES: usize = 32;

/// The bells of a round.
#[derive(Drop)]
pub(crate) struct Bells {
    // A number for the page that is waited for; else 0.
    wanted: AtomicU64,
    // For each worker 1 while it waits for memory, else 0.
    rooms: [AtomicU64; PLACES],
    // 1 from when the drawing has begun, 2 when it is over, else 0.
    drawing: AtomicU64,
    // 1 while pages are taken, else 0.
    taking: AtomicU64,
    // 1 where no thread began to draw in time, else 0.
    late: AtomicU64,
}

impl Bells {
    /// Nobody draws, and nobody waits. Pages are taken in the meantime, or not.
    pub(crate) fn new(meanwhile: bool) -> Bells {
        Bells {
            wanted: AtomicU64::new(0),
            rooms: array::from_fn(|_| AtomicU64::new(0)),
            drawing: AtomicU64::new(0),
            taking: AtomicU64::new(u64::from(meanwhile)),
            late: AtomicU64::new(0),
        }
    }

    // A number for a page, which is never 0.
    fn number_of(page: usize) -> u64 {
        (page as u64).saturating_add(1)
    }

    fn room(&self, number: usize) -> &AtomicU64 {
        &self.rooms[number % PLACES]
    }

    /// The drawing begins.
    pub(crate) fn begin(&self) {
        self.drawing.store(1, Ordering::SeqCst);
        self.wake_taker();
    }

    /// The drawing is over.
    pub(crate) fn end(&self) {
        self.drawing.store(2, Ordering::SeqCst);
        self.wake_taker();
    }

    /// Whether the drawing is over.
    pub(crate) fn is_over(&self) -> bool {
        self.drawing.load(Ordering::SeqCst) == 2
    }

    // Wakes who takes the pages, whatever it waits for.
    fn wake_taker(&self) {
        self.wanted.store(0, Ordering::SeqCst);
        self.wanted.wake_one();
    }

    /// Waits until the drawing begins, and answers whether it has.
    pub(crate) fn wait_for_begin<R: Wait>(&self, rt: &R) -> bool {
        for _ in 0..SLEEPS {
            self.wanted.store(u64::MAX, Ordering::SeqCst);
            if self.drawing.load(Ordering::SeqCst) != 0 {
                return true;
            }
            self.wanted
                .park_timeout(rt, u32::MAX, Duration::from_millis(MAX_SLEEP));
        }
        self.late.store(1, Ordering::SeqCst);
        false
    }

    /// Whether no thread began to draw in time.
    pub(crate) fn is_late(&self) -> bool {
        self.late.load(Ordering::SeqCst) != 0
    }

    /// From now on whoever hands this page on rings.
    pub(crate) fn want(&self, page: usize) {
        self.wanted.store(Bells::number_of(page), Ordering::SeqCst);
    }

    /// Sleeps until the page that is wanted was handed on, or less long.
    pub(crate) fn sleep_for_page<R: Wait>(&self, rt: &R, page: usize) {
        let word = (Bells::number_of(page) % (1 << 32)) as u32;
        self.wanted
            .park_timeout(rt, word, Duration::from_millis(MAX_SLEEP));
    }

    /// Rings where this page is waited for.
    pub(crate) fn ring_for_page(&self, page: usize) {
        if self.wanted.load(Ordering::SeqCst) == Bells::number_of(page) {
            self.wake_taker();
        }
    }

    /// Whether no pages are taken any more, or are taken only when all are drawn.
    pub(crate) fn nobody_takes(&self) -> bool {
        self.taking.load(Ordering::SeqCst) == 0
    }

    /// From now on no pages are taken, and no worker waits.
    pub(crate) fn leave(&self) {
        self.taking.store(0, Ordering::SeqCst);
        for room in &self.rooms {
            room.store(0, Ordering::SeqCst);
            room.wake_one();
        }
    }

    /// From now on memory for this worker is rung for.
    pub(crate) fn want_room(&self, number: usize) {
        self.room(number).store(1, Ordering::SeqCst);
    }

    /// Sleeps until there is memory for this worker, or less long.
    pub(crate) fn sleep_for_room<R: Wait>(&self, rt: &R, number: usize) {
        self.room(number)
            .park_timeout(rt, 1, Duration::from_millis(MAX_SLEEP));
    }

    /// Rings where this worker waits for memory.
    pub(crate) fn ring_for_room(&self, number: usize) {
        let room = self.room(number);
        if room.load(Ordering::SeqCst) != 0 {
            room.store(0, Ordering::SeqCst);
            room.wake_one();
        }
    }
}
