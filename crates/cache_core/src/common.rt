//! What all seats of one cache have in common.
use outside::Library;
use pixel_round::Units;

/// What all seats of one cache have in common: how many fonts it keeps, how many bytes they may
/// weigh together, the units of the document and the resolution, and the font files, where they are
/// known. It is named in contracts, and no value of it is made.
pub struct Common {
    pub capacity: usize,
    pub budget: u64,
    pub units: Units,
    pub library: Option<Library>,
}
