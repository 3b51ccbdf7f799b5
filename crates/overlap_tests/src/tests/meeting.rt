//! Where loads and a write are held until others began.

use std::sync::Arc;
use std::sync::atomic::{AtomicU32, Ordering};
use std::thread;

// How many turns one waits, and how often it looks in each: some seconds, which is less than a test
// has.
const TURNS: u32 = 1000;

const LOOKS: u32 = 50_000;

/// How many of those awaited began.
#[derive(Drop)]
pub struct Meeting {
    pub begun: Arc<AtomicU32>,
}

impl Meeting {
    /// Notes that one began.
    pub fn begin(&self) {
        self.begun.fetch_add(1, Ordering::SeqCst);
    }

    // Looks for one turn whether two began.
    fn have_begun(&self) -> bool {
        for _look in 0..LOOKS {
            if self.begun.load(Ordering::SeqCst) >= 2 {
                return true;
            }
        }
        false
    }

    /// Waits until two began, and says whether they did.
    pub fn wait(&self) -> bool {
        for _turn in 0..TURNS {
            if self.have_begun() {
                return true;
            }
            thread::yield_now();
        }
        false
    }
}
