//! How much a cache keeps.

/// How many fonts a cache keeps at most, and how many bytes they weigh together at most.
#[derive(Clone, Copy)]
pub struct Limits {
    pub capacity: usize,
    pub budget: u64,
}
