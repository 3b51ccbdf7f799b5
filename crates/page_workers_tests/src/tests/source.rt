//! A source whose loads fail, or are held until others began.
ghost use Rattle.std.specs.Prelude.{◌<◌, ◌^◌};

use outside::{FileName, FontSource, Library, LoadStop};
use std::sync::Arc;
use std::sync::atomic::{AtomicU32, Ordering};
use std::thread;

/// What becomes of loads.
#[derive(Clone, Copy)]
pub enum Plan {
    /// None fails.
    Sure,
    /// The load of a worker that has this number, from 1, fails.
    FailsAt(u64),
    /// Each load of a file whose name begins so fails.
    FailsWith(&'static [u8]),
    /// The loads of the first files are held until two loads of the others began, by all workers.
    Held(&'static [&'static [u8]], &'static [&'static [u8]]),
}

// How many turns a load is held at most, and how often it looks in each: some seconds, which is
// less than a test has.
const TURNS: u32 = 1000;

const LOOKS: u32 = 50_000;

/// A source of a library's files that goes by a plan. A load that is held in vain fails.
#[derive(Drop)]
pub struct Planned {
    pub library: Arc<Library>,
    /// How many loads of awaited files began, by all workers.
    pub begun: Arc<AtomicU32>,
    pub plan: Plan,
    pub loads: u64,
    pub faults: u64,
    pub ghost loads_fit: { loads < 2 ^ 64 },
}

fn is_among(name: &FileName, names: &[&[u8]]) -> bool {
    for other in names {
        if name.bytes() == *other {
            return true;
        }
    }
    false
}

// Looks for one turn whether two loads began.
fn two_began(begun: &AtomicU32) -> bool {
    for _look in 0..LOOKS {
        if begun.load(Ordering::SeqCst) >= 2 {
            return true;
        }
    }
    false
}

// Waits until two loads began, and says whether they did.
fn wait_for_two(begun: &AtomicU32) -> bool {
    for _turn in 0..TURNS {
        if two_began(begun) {
            return true;
        }
        thread::yield_now();
    }
    false
}

// Notes a load where it is awaited, and says whether it may go on after it was held.
fn is_let_go(begun: &AtomicU32, name: &FileName, held: &[&[u8]], awaited: &[&[u8]]) -> bool {
    if is_among(name, awaited) {
        begun.fetch_add(1, Ordering::SeqCst);
    }
    !is_among(name, held) || wait_for_two(begun)
}

// Whether the load of this number fails.
fn fails(begun: &AtomicU32, plan: Plan, load: u64, name: &FileName) -> bool {
    match plan {
        Plan::Sure => false,
        Plan::FailsAt(number) => load == number,
        Plan::FailsWith(begin) => name.bytes().starts_with(begin),
        Plan::Held(held, awaited) => !is_let_go(begun, name, held, awaited),
    }
}

impl FontSource for Planned {
    ghost faults = { λ p. p.faults };

    ghost loads = { λ p. p.loads };

    ghost loads_fit = { λ p. p.loads_fit };

    fn load(&mut self, name: &FileName) -> Result<Option<Vec<u8>>, LoadStop> {
        self.loads = self.loads.saturating_add(1);
        if fails(&self.begun, self.plan, self.loads, name) {
            self.faults = self.faults.saturating_add(1);
            return Err(LoadStop::Failed);
        }
        Ok(self.library.copy_of(name)?)
    }
}
