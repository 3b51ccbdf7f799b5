//! The names of a font's files.
ghost use Rattle.std.specs.Prelude.{◌<◌};

use super::{Named, UNITS, key};
use font_decode::{dpi, file_name, is_valid_name, laws};
use outside::FileName;
use pixel_round::Units;
use std::alloc::Global;
use std::str;
use std::test::Fail;

// A magnification, a font, and the resolution of its glyphs.
static RESOLUTIONS: [(u32, Named, u128); 3] = [
    (1000, (b"dot", 128, 128), 300),
    (2000, (b"dot", 128, 128), 600),
    // A half, up.
    (1000, (b"dot", 1, 600), 1),
];

// The resolution of a font's glyphs at a magnification.
fn resolution(alloc: Global, mag: u32, font: &Named) -> Result<u128, Fail> {
    if !matches!(mag, 1..=2000) {
        return Err(Fail::from("a magnification out of range"));
    }
    let units = Units {
        num: 1270,
        den: 3,
        mag,
        res: 300,
    };
    Ok(dpi(&units, &key(alloc, font)?))
}

#[test]
fn resolutions_of_glyphs(rt: HostRuntime) -> Result<(), Fail> {
    laws::names();
    laws::answers();
    for (row, (mag, font, want)) in RESOLUTIONS.iter().enumerate() {
        assert_eq!(rt; resolution(rt.alloc(), *mag, font)?, *want, "row {row}");
    }
    Ok(())
}

static NAMES: [&str; 8] = [
    "dot.tfm",
    "dot.vf",
    "dot.300pk",
    "dot.301pk",
    "dot.299pk",
    "dot.300gf",
    "dot.301gf",
    "dot.299gf",
];

// The name of one of the files of `dot`.
fn name_of(alloc: Global, which: usize) -> Result<FileName, Fail> {
    let dot = key(alloc, &(b"dot", 128, 128))?;
    if which >= 8 || !is_valid_name(&dot) || !matches!(dpi(&UNITS, &dot), 1..=1_000_000) {
        return Err(Fail::from("no such file of the font is looked for"));
    }
    Ok(file_name(alloc, &dot, &UNITS, which)?)
}

#[test]
fn names_of_files(rt: HostRuntime) -> Result<(), Fail> {
    for (which, want) in NAMES.iter().enumerate() {
        let name = name_of(rt.alloc(), which)?;
        assert_eq!(rt; str::from_utf8(name.bytes()).ok(), Some(*want));
    }
    Ok(())
}
