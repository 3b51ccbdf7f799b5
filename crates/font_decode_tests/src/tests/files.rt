//! The files of the fonts, and what they come to.

use super::{Named, UNITS, key};
use font_decode::{Decoded, Files, decode};
use std::alloc::{AllocError as NoMemory, Global};
use std::test::Fail;

/// A file: its beginning, its length, and bytes that stand from a place on in place of its own.
/// Behind the beginning it has zeros. A file without bytes isn't there.
pub type File = (&'static [u8], usize, usize, &'static [u8]);

/// No file.
pub const NONE: File = (&[], 0, 0, &[]);

// The code 65 alone, 1/16 of the size wide.
pub const DOT_TFM: [u8; 56] = [
    0, 14, 0, 2, 0, 65, 0, 65, 0, 2, 0, 1, 0, 1, 0, 1, 0, 0, 0, 0, 0, 0, 0, 0, 0, 0, 0, 0, 0, 160,
    0, 0, 1, 0, 0, 0, 0, 0, 0, 0, 0, 1, 0, 0, 0, 0, 0, 0, 0, 0, 0, 0, 0, 0, 0, 0,
];

// The code 65 alone, two by two black dots.
pub const DOT_PK: [u8; 32] = [
    0xf7, 0x59, 0x00, 0x00, 0xa0, 0x00, 0x00, 0x00, 0x00, 0x00, 0x00, 0x00, 0x04, 0x26, 0xae, 0x00,
    0x04, 0x26, 0xae, 0xe0, 0x09, 0x41, 0x01, 0x00, 0x00, 0x04, 0x02, 0x02, 0x00, 0x01, 0xf0, 0xf5,
];

// Local font 0 is `dot` and 1 is `bar`, both at the font's own size and at 128 units by their
// design; the letter 65 is that letter of `dot` and that of `bar`.
pub const DUO_VF: [u8; 60] = [
    0xf7, 0xca, 0x00, 0x00, 0x00, 0x00, 0x00, 0x00, 0xa0, 0x00, 0x00, 0xf3, 0x00, 0x00, 0x00, 0x00,
    0x00, 0x00, 0x10, 0x00, 0x00, 0x00, 0xf6, 0xae, 0x7d, 0x00, 0x03, 0x64, 0x6f, 0x74, 0xf3, 0x01,
    0x00, 0x00, 0x00, 0x00, 0x00, 0x10, 0x00, 0x00, 0x00, 0xf6, 0xae, 0x7d, 0x00, 0x03, 0x62, 0x61,
    0x72, 0x03, 0x41, 0x02, 0x80, 0x00, 0x41, 0xac, 0x41, 0xf8, 0xf8, 0xf8,
];

// The letter 65 is itself, without a local font, and 66 a rule.
pub const BOX_VF: [u8; 32] = [
    0xf7, 0xca, 0x00, 0x00, 0x00, 0x00, 0x00, 0x00, 0xa0, 0x00, 0x00, 0x01, 0x41, 0x01, 0x00, 0x00,
    0x41, 0x09, 0x42, 0x01, 0x00, 0x00, 0x84, 0x00, 0x01, 0x00, 0x00, 0x00, 0x01, 0x00, 0x00, 0xf8,
];

// The code 65 alone, two by two black dots, as METAFONT writes it.
pub const DOT_GF: [u8; 15] = [
    0xf7, 0x83, 0x00, 0x44, 0x41, 0x01, 0x01, 0x01, 0x01, 0x00, 0x02, 0x4a, 0x02, 0x45, 0xf8,
];

/// The TFM file of one character.
pub const TFM: File = (&DOT_TFM, 56, 0, &[]);

/// The PK file of one character.
pub const PK: File = (&DOT_PK, 32, 0, &[]);

/// The GF file of one character.
pub const GF: File = (&DOT_GF, 15, 0, &[]);

// A file's bytes.
fn bytes_of(alloc: Global, file: &File) -> Result<Option<Vec<u8>>, NoMemory> {
    let (beginning, length, at, changed) = *file;
    if length == 0 {
        return Ok(None);
    }
    let mut bytes = Vec::from_slice(alloc, beginning)?;
    bytes.resize(length, 0)?;
    for (byte, other) in bytes.iter_mut().skip(at).zip(changed) {
        *byte = *other;
    }
    Ok(Some(bytes))
}

/// What the files of a font come to, the TFM, the VF and the PK file.
pub fn decoded(alloc: Global, font: &Named, files: &[File; 3]) -> Result<Decoded, Fail> {
    let [tfm, vf, pk] = *files;
    decoded_of_four(alloc, font, &[tfm, vf, pk, NONE])
}

/// What the files of a font come to, with the GF file as the fourth.
pub fn decoded_of_four(alloc: Global, font: &Named, files: &[File; 4]) -> Result<Decoded, Fail> {
    let [tfm, vf, pk, gf] = files;
    let files = Files {
        tfm: bytes_of(alloc, tfm)?,
        vf: bytes_of(alloc, vf)?,
        pk: bytes_of(alloc, pk)?,
        gf: bytes_of(alloc, gf)?,
    };
    Ok(decode(alloc, &key(alloc, font)?, &files, &UNITS)?)
}
