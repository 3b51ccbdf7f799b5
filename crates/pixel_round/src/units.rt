//! What a document and its reader say of the size of a unit.

/// The fractions of a DVI preamble, and the resolution.
///
/// Knuth, DVItype, "Optional modes of output" (the resolution) and "The preamble" (num, den and
/// mag).
#[derive(Clone, Copy, Debug, PartialEq, Eq)]
pub struct Units {
    /// The numerator: with `den` it gives one DVI unit in units of 10^-7 meters.
    pub num: u32,
    /// The denominator.
    pub den: u32,
    /// The magnification times 1000.
    pub mag: u32,
    /// The dots to the inch.
    pub res: u32,
}
