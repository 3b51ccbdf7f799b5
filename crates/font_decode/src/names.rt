//! The names of a font's files.
ghost use Rattle.std.specs.Prelude.{◌≡◌, ◌<◌, ◌≤◌, ◌++◌, ◌+◌, ◌*◌, ◌^◌, IsTrue, IfOk, Some, slice_get};
ghost use Rattle.std.specs.List.{list_all};
ghost use Rattle.outside.specs.FontKeys.{IsFontKey};
ghost use Rattle.pixel_round.specs.Preamble.{AreUnits};
ghost use Rattle.font_decode.specs.Names.{is_name_byte, is_valid_name, dpi, is_resolution, glyph_name, file_names};

use itoa::Buffer;
use outside::{FileName, FontKey};
use pixel_round::Units;
use std::alloc::{AllocError as NoMemory, Global};

// Whether this byte may stand in a name that is looked for.
fn is_name_byte(byte: u8) -> bool
    ensures { result ≡ is_name_byte byte }
{
    matches!(byte, b'A'..=b'Z' | b'a'..=b'z' | b'0'..=b'9' | b'-' | b'_' | b'+' | b'.')
}

// Whether a name has only such bytes.
fn has_name_bytes(name: &[u8]) -> bool
    ensures { result ≡ list_all is_name_byte name.now }
{
    name.iter().all(|byte| is_name_byte(*byte))
}

/// Whether files of this font are looked for: its name has no area and 1 to 100 bytes, each of them
/// an ASCII letter, a digit, `-`, `_`, `+` or `.`, and the first of them isn't `.`.
pub fn is_valid_name(key: &FontKey) -> bool
    ensures { result ≡ is_valid_name key.now }
{
    let name = key.name.bytes();
    key.area == 0 && matches!(name.len(), 1..=100) && has_name_bytes(name) && name[0] != b'.'
}

/// The resolution of a font's glyphs, in dots to the inch: `res * mag * size / (1000 * design)` to
/// the nearest whole number, halves up.
pub fn dpi(units: &Units, key: &FontKey) -> u128
    requires units { AreUnits units.now }
    requires key { IsFontKey key.now }
    ensures { result ≡ dpi units.now key.now }
{
    let top = u128::from(units.res) * u128::from(units.mag) * u128::from(key.size);
    let bottom = 1000 * u128::from(key.design);
    (2 * top + bottom) / (2 * bottom)
}

// Whether PK and GF files of this resolution are looked for.
pub(crate) fn is_resolution(dpi: u128) -> bool
    ensures { result ≡ is_resolution dpi }
{
    matches!(dpi, 1..=1_000_000)
}

// The font's name with an ending.
fn ending_in(alloc: Global, key: &FontKey, ending: &[u8]) -> Result<FileName, NoMemory>
    ensures { IfOk result (λ name. name ≡ key.now.name ++ ending.now) }
{
    let mut bytes = Vec::from_slice(alloc, key.name.bytes())?;
    bytes.extend_from_slice(ending)?;
    FileName::new(alloc, &bytes)
}

// The name of the font's file of glyphs at a resolution, of the kind that two letters name.
fn glyph_name(
    alloc: Global,
    key: &FontKey,
    resolution: u128,
    kind: &[u8],
) -> Result<FileName, NoMemory>
    ensures { IfOk result (λ name. name ≡ glyph_name kind.now key.now resolution) }
{
    let mut buffer = Buffer::new();
    let mut ending = Vec::from_slice(alloc, b".")?;
    ending.extend_from_slice(buffer.format(resolution).as_bytes())?;
    ending.extend_from_slice(kind)?;
    ending_in(alloc, key, &ending)
}

/// The name of one of a font's files: 0 is its TFM file, 1 its VF file, 2, 3 and 4 are its PK files
/// at its resolution, at one above and at one below, and 5, 6 and 7 its GF files at these three.
pub fn file_name(
    alloc: Global,
    key: &FontKey,
    units: &Units,
    which: usize,
) -> Result<FileName, NoMemory>
    requires units { AreUnits units.now }
    requires key { IsFontKey key.now }
    requires valid { IsTrue (is_valid_name key.now) }
    requires which { which < 8 }
    requires resolution { 2 ≤ which → IsTrue (is_resolution (dpi units.now key.now)) }
    ensures { IfOk result (λ name. slice_get (file_names units.now key.now) which ≡ Some name) }
{
    match which {
        0 => ending_in(alloc, key, b".tfm"),
        1 => ending_in(alloc, key, b".vf"),
        2 => glyph_name(alloc, key, dpi(units, key), b"pk"),
        3 => glyph_name(alloc, key, dpi(units, key) + 1, b"pk"),
        4 => glyph_name(alloc, key, dpi(units, key) - 1, b"pk"),
        5 => glyph_name(alloc, key, dpi(units, key), b"gf"),
        6 => glyph_name(alloc, key, dpi(units, key) + 1, b"gf"),
        _ => glyph_name(alloc, key, dpi(units, key) - 1, b"gf"),
    }
}
