//! When a run begins and ends, the work between two look-ups, and what is counted.
ghost use Rattle.std.specs.Prelude.{◌≤◌, IfOk};

use std::sync::atomic::{AtomicU32, AtomicU64, AtomicUsize, Ordering};
use std::time::{Clock, Duration, Instant};
use std::{io, thread};

/// No run makes more look-ups of one seat.
pub(crate) const MAX_TURNS: u64 = 1 << 40;

/// What the threads of one run share.
#[derive(Drop)]
pub(crate) struct Pace {
    // How many threads the run has, the timer included.
    all: usize,
    came: AtomicUsize,
    over: AtomicU32,
    looks: AtomicU64,
    // What the work came to, so that it is done.
    sum: AtomicU64,
    steps: u64,
}

// n steps, each of which needs the one before it.
fn steps_from(start: u64, steps: u64) -> u64 {
    let mut x = start;
    for _ in 0..steps {
        x = (x ^ (x >> 29)).wrapping_mul(0xbf58_476d_1ce4_e5b9);
    }
    x
}

/// How many steps of work take a microsecond where no other thread comes between.
pub(crate) fn steps_a_microsecond<C: Clock>(clock: &C) -> io::Result<u64>
    ensures { IfOk result (λ n. n ≤ 100000) }
{
    let mut best = u128::MAX;
    let mut x = 1;
    for _ in 0..100u32 {
        let start = Instant::now(clock)?;
        x = steps_from(x, 100_000);
        best = best.min(start.elapsed(clock)?.as_nanos());
    }
    // It is never so, and the steps have to be made for it.
    if x == 0 {
        return Ok(0);
    }
    let steps = 100_000_000u128.checked_div(best).unwrap_or(0);
    Ok(u64::try_from(steps).unwrap_or(0).min(100_000))
}

impl Pace {
    /// A run of n seats, with n steps of work between two look-ups.
    pub(crate) fn new(seats: usize, steps: u64) -> Pace {
        Pace {
            all: seats.saturating_add(1),
            came: AtomicUsize::new(0),
            over: AtomicU32::new(0),
            looks: AtomicU64::new(0),
            sum: AtomicU64::new(0),
            steps,
        }
    }

    /// Waits until all threads have come, for a limited time.
    pub(crate) fn meet(&self) {
        self.came.fetch_add(1, Ordering::SeqCst);
        for _ in 0..1_000_000u32 {
            if self.came.load(Ordering::SeqCst) >= self.all {
                return;
            }
            thread::yield_now();
        }
    }

    /// Whether the time is up.
    pub(crate) fn is_over(&self) -> bool {
        self.over.load(Ordering::SeqCst) != 0
    }

    /// The work between two look-ups.
    pub(crate) fn work(&self, x: u64) -> u64 {
        steps_from(x, self.steps)
    }

    /// Notes that n look-ups were made.
    pub(crate) fn note(&self, looks: u64, x: u64) {
        self.looks.fetch_add(looks, Ordering::SeqCst);
        self.sum.fetch_add(x, Ordering::SeqCst);
    }

    /// Ends the run after the time, and answers how many nanoseconds it took.
    pub(crate) fn end_after<C: Clock>(&self, clock: &C, time: Duration) -> io::Result<u128> {
        self.meet();
        let start = Instant::now(clock);
        thread::sleep(clock, time);
        self.over.store(1, Ordering::SeqCst);
        Ok(start?.elapsed(clock)?.as_nanos())
    }

    /// How many look-ups a second that was.
    pub(crate) fn rate(&self, nanos: u128) -> Option<u64> {
        let looks = u128::from(self.looks.load(Ordering::SeqCst));
        let rate = (looks * 1_000_000_000).checked_div(nanos)?;
        u64::try_from(rate).ok()
    }
}
