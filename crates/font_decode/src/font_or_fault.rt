//! What a key's files come to.
ghost use Rattle.std.specs.Prelude.{◌≡◌, IfOk};

use crate::{Font, FontFault};
use cache_core::Stands;
use std::alloc::AllocError as NoMemory;

/// A font, or the first thing that is wrong with it.
#[derive(Drop)]
pub enum Decoded {
    /// The font.
    Font(Font),
    /// A font that has neither a PK nor a GF file, and no other fault: its widths, and no glyph.
    Bare(Font),
    /// Its first fault, where that is another one.
    Fault(FontFault),
}

impl Decoded {
    /// The same again, with the font's widths and characters in common. `NoMemory` comes where no
    /// more shares can be counted.
    pub fn share(&self) -> Result<Decoded, NoMemory>
        ensures { IfOk result (λ decoded. decoded ≡ self.now) }
    {
        match self {
            Decoded::Font(font) => Ok(Decoded::Font(font.share()?)),
            Decoded::Bare(font) => Ok(Decoded::Bare(font.share()?)),
            Decoded::Fault(fault) => Ok(Decoded::Fault(*fault)),
        }
    }
}

/// A decoding stands for a key where it is what the key's files in the common library come to, at
/// the units of the document. Where no library is known, it is what some files come to, which were
/// found in the order of the format; nothing is then said of where these were, nor that two
/// decodings that stand for one key are alike. A font weighs the bytes of its glyphs or packets,
/// and a bare font and a fault nothing.
impl Stands for Decoded {
    ghost use Rattle.std.specs.Prelude.{Some};
    ghost use Rattle.font_decode.specs.Decoding.{IsFontOf};
    ghost use Rattle.font_decode.specs.Weights.{weight_of};

    ghost stands_for = { λ font k part. IsFontOf part.library (Some part.units) k font };

    ghost weighs = { λ font. weight_of font };

    fn weight(&self) -> u64 {
        match self {
            Decoded::Font(font) => font.weight(),
            Decoded::Bare(_) | Decoded::Fault(_) => 0,
        }
    }
}
