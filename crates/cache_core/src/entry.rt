//! The entries of the history, the answers of a look, and what a fill hands out.
use crate::keys::Keys;
use outside::FontKey;
use std::sync::Arc;

/// What the history tells of a fill: how many bytes the font weighs, whether the cache keeps it,
/// and the keys of the fonts that were evicted for it, the least recently used first.
#[derive(Drop)]
pub struct WeighedFill {
    pub weight: u64,
    pub kept: bool,
    pub gone: Keys,
}

/// What a call did.
#[derive(Drop)]
pub enum Act {
    /// A look found the font.
    Hit,
    /// A look found no font and no claim, and the seat has claimed the key.
    Claimed,
    /// A look found no font, and another seat has claimed the key.
    Busy,
    /// The seat handed in the font that it had claimed. What is told of it lies apart, since nearly
    /// all entries are looks, and each takes as much room as the largest act.
    Filled(Box<WeighedFill>),
    /// The seat gave its claim up.
    Released,
}

/// One call: the seat that made it, the key that it named, and what it did.
#[derive(Drop)]
pub struct Entry {
    pub seat: u32,
    pub key: Arc<FontKey>,
    pub act: Act,
}

/// What a look answers.
#[derive(Drop)]
pub enum Look<T: Drop> {
    /// The font is resident, and this is its value.
    Hit(Arc<T>),
    /// The seat has claimed the key: it loads the font, and then fills or releases.
    Claimed,
    /// Another seat has claimed the key: the caller loads the font for itself and keeps nothing
    /// here.
    Busy,
}

/// What a fill answers: whether the font was kept, and the keys of the fonts that were evicted for
/// it, the least recently used first.
#[derive(Drop)]
pub struct Fill {
    pub kept: bool,
    pub gone: Keys,
}

/// What a fill answers, with the fonts that it lets go: those that were evicted, in that order, or
/// the one that was handed in where it wasn't kept.
#[derive(Drop)]
pub struct Filling<T: Drop> {
    pub fill: Fill,
    pub fonts: Vec<Arc<T>>,
}
