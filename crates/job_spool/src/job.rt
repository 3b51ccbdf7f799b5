//! A document that is to be drawn.

use cache_core::Entry;

/// A document that is to be drawn, by its streams, and what came of it.
#[derive(Drop)]
pub struct Job<I, O> {
    /// Where its DVI bytes come from.
    pub input: I,
    /// Where its pages go.
    pub out: O,
    /// How it ended: 0 where all its pages were written, and else 2 to 7 or 9, as `dvipbm` ends for
    /// this document alone.
    pub status: u8,
    /// The calls of the cache that began with this job, in their order; of all other jobs none.
    pub history: Vec<Entry>,
}
