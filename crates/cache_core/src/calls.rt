//! The calls of the history, as contracts see them.
use crate::keys::Keys;
use outside::FontKey;

/// What a call did, with keys as values. No value of it is made.
pub enum Done {
    Hit,
    Claimed,
    Busy,
    /// How many bytes the font weighs, whether it was kept, and the keys of the fonts that were
    /// evicted for it.
    Filled(u64, bool, Keys),
    Released,
}

/// A call of a seat, with its key as a value: what an `Entry` says. No value of it is made.
pub struct Call {
    pub seat: u32,
    pub key: FontKey,
    pub done: Done,
}
