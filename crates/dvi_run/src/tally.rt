//! What a run wrote whole.

/// What a run wrote whole, and whether it could note what that lacks.
#[derive(Clone, Copy, Debug, PartialEq, Eq)]
pub struct Tally {
    /// How many pages, which are the first ones of the document.
    pub pages: usize,
    /// How many of their pixels are black, where they were counted; else 0.
    pub black: u64,
    /// Whether the notes took all lines of what these pages lack. After a failed write nothing more
    /// is written to them.
    pub noted: bool,
}
