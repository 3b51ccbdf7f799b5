//! What came of two jobs.

use cache_core::{Act, Entry};
use outside::{FontSource, MemOutput};
use page_workers::Worker;

/// A job's answer, the bytes that it wrote, and the loads that all its workers asked for.
pub type OfJob = (u8, &'static [u8], u64);

/// What came of the first and of the second job; how often the workers drew a first, a second and a
/// third page; and how many of all calls of the cache are hits, claims, busy looks, fills and
/// releases.
pub type OfJobs = (OfJob, OfJob, [u32; 3], [u32; 5]);

/// What came of a job.
#[derive(Drop)]
pub struct Job {
    pub answer: u8,
    pub output: MemOutput,
    pub loads: u64,
}

/// What came of two jobs.
#[derive(Drop)]
pub struct Came {
    pub job: Job,
    pub later_job: Job,
    pub drawn: [u32; 3],
    pub calls: [u32; 5],
}

impl Job {
    fn told(&self) -> (u8, &[u8], u64) {
        (self.answer, self.output.bytes(), self.loads)
    }
}

impl Came {
    /// It, as a row has it.
    pub fn told(&self) -> ((u8, &[u8], u64), (u8, &[u8], u64), [u32; 3], [u32; 5]) {
        (
            self.job.told(),
            self.later_job.told(),
            self.drawn,
            self.calls,
        )
    }
}

/// How many loads the workers asked for until now.
pub fn loads_of<F: FontSource>(workers: &[Worker<F>]) -> u64 {
    let mut loads = 0u64;
    for worker in workers {
        loads = loads.saturating_add(worker.loads);
    }
    loads
}

/// How often the workers drew each of three pages.
pub fn drawn_by<F: FontSource>(workers: &[Worker<F>]) -> [u32; 3] {
    let mut drawn = [0u32; 3];
    for worker in workers {
        for page in &worker.pages {
            let at = (*page).min(2);
            drawn[at] = drawn[at].saturating_add(1);
        }
    }
    drawn
}

/// How many calls are of which kind.
pub fn calls_of(history: &[Entry]) -> [u32; 5] {
    let mut calls = [0u32; 5];
    for entry in history {
        let kind = match &entry.act {
            Act::Hit => 0,
            Act::Claimed => 1,
            Act::Busy => 2,
            Act::Filled(_) => 3,
            Act::Released => 4,
        };
        calls[kind] = calls[kind].saturating_add(1);
    }
    calls
}
