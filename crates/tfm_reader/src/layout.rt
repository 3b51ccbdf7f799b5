//! The counts at the beginning of a TFM file, and the places that follow from them.
ghost use Rattle.std.specs.Prelude.{◌<◌, ◌*◌};

mod reads;

pub use reads::places;

/// The counts, each of two bytes: of words, of the header's words, the least and the greatest code,
/// of widths, and of the words after the widths.
#[derive(Drop)]
pub struct Counts {
    pub words: usize,
    pub header: usize,
    pub first: usize,
    pub last: usize,
    pub widths: usize,
    pub others: usize,
    ghost fits: { (words < 65536) × (header < 65536) × (first < 65536) × (last < 65536)
        × (widths < 65536) × (others < 7 * 65536) },
}

/// The places: the least code, the number of codes, the byte at which their words of char_info
/// begin, that at which the widths begin, and the number of widths.
#[derive(Drop)]
pub struct Layout {
    pub first: usize,
    pub codes: usize,
    pub infos: usize,
    pub widths: usize,
    pub count: usize,
}
