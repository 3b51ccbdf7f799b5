//! What a run counts besides the calls of its font cache.

/// What a run counts besides the calls of its font cache.
#[derive(Clone, Copy, Debug, PartialEq, Eq)]
pub struct Counts {
    /// The pages that were written whole.
    pub pages: u64,
    /// The loads of font files that were asked of the used sources, all of them together.
    pub loads: u128,
    /// The black pixels of the pages that were written whole.
    pub black: u64,
}
