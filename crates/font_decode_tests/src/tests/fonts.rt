//! Fonts by their files: widths, glyphs, packets and local fonts.

use super::Named;
use super::files::{BOX_VF, DOT_GF, DOT_TFM, DUO_VF, File, GF, NONE, PK, TFM, decoded_of_four};
use font_decode::{Decoded, Font, laws};
use outside::FontKey;
use pk_runs::Glyph;
use std::alloc::Global;
use std::sync::Arc;
use std::test::Fail;

const DOT: Named = (b"dot", 128, 128);

const DUO: Named = (b"duo", 128, 128);

const BOX: Named = (b"box", 128, 128);

// The files of these three fonts.
const DOTS: [File; 4] = [TFM, NONE, PK, NONE];

const DUOS: [File; 4] = [TFM, (&DUO_VF, 60, 0, &[]), PK, GF];

const RULES: [File; 4] = [TFM, (&BOX_VF, 32, 0, &[]), NONE, NONE];

// `dot` with a GF file, and with one whose third column is white.
const GENERIC: [File; 4] = [TFM, NONE, NONE, GF];

const WIDE: [File; 4] = [TFM, NONE, NONE, (&DOT_GF, 15, 5, &[2, 2])];

// `dot` without a file of glyphs.
const BARE: [File; 4] = [TFM, NONE, NONE, NONE];

// A character: its width, how many pixels of its glyph are black, with the glyph's sides, the
// glyph's offsets, and the packet or `none`.
type Character<'a> = (Option<i64>, (u32, u32, u32), Option<(i32, i32)>, &'a [u8]);

const GLYPH: (u32, u32, u32) = (4, 2, 2);

const BLANK: (u32, u32, u32) = (0, 0, 0);

static CHARACTERS: [(Named, &'static [File; 4], i32, Character<'static>); 20] = [
    (DOT, &DOTS, 65, (Some(8), GLYPH, Some((0, 1)), b"none")),
    (DOT, &GENERIC, 65, (Some(8), GLYPH, Some((0, 1)), b"none")),
    (DOT, &WIDE, 65, (Some(8), (4, 3, 2), Some((0, 1)), b"none")),
    (DOT, &GENERIC, 66, (None, BLANK, None, b"none")),
    (DOT, &BARE, 65, (Some(8), BLANK, None, b"none")),
    (DOT, &BARE, 66, (None, BLANK, None, b"none")),
    (DOT, &BARE, 321, (None, BLANK, None, b"none")),
    (
        (b"dot", 256, 128),
        &BARE,
        65,
        (Some(16), BLANK, None, b"none"),
    ),
    (DOT, &DOTS, 64, (None, BLANK, None, b"none")),
    (DOT, &DOTS, 66, (None, BLANK, None, b"none")),
    (DOT, &DOTS, -1, (None, BLANK, None, b"none")),
    (DOT, &DOTS, 321, (None, BLANK, None, b"none")),
    (DOT, &DOTS, -191, (None, BLANK, None, b"none")),
    (
        (b"dot", 256, 128),
        &DOTS,
        65,
        (Some(16), GLYPH, Some((0, 1)), b"none"),
    ),
    // 3/128 of a size of 100 units is 2.34, and as much to the left is rounded down, too.
    (
        (b"dot", 100, 128),
        &[(&DOT_TFM, 56, 41, &[0, 96]), NONE, PK, NONE],
        65,
        (Some(2), GLYPH, Some((0, 1)), b"none"),
    ),
    (
        (b"dot", 100, 128),
        &[(&DOT_TFM, 56, 40, &[255, 255, 160]), NONE, PK, NONE],
        65,
        (Some(-3), GLYPH, Some((0, 1)), b"none"),
    ),
    (DUO, &DUOS, 65, (Some(8), BLANK, None, &[0x41, 0xac, 0x41])),
    (DUO, &DUOS, 66, (None, BLANK, None, b"none")),
    (BOX, &RULES, 65, (Some(8), BLANK, None, &[0x41])),
    (
        BOX,
        &RULES,
        66,
        (None, BLANK, None, &[0x84, 0, 1, 0, 0, 0, 1, 0, 0]),
    ),
];

// The font of these files, or the bare font: a share of it that outlives the others.
fn font(alloc: Global, named: &Named, files: &[File; 4]) -> Result<Font, Fail> {
    match decoded_of_four(alloc, named, files)?.share()? {
        Decoded::Font(font) => Ok(font),
        Decoded::Bare(font) => Ok(font),
        Decoded::Fault(_) => Err("a fault")?,
    }
}

// How many pixels of a glyph are black, and its sides.
fn black(glyph: &Glyph) -> (u32, u32, u32) {
    let (width, height) = (glyph.raster.width(), glyph.raster.height());
    let mut count = 0u32;
    for y in 0..height {
        for x in 0..width {
            if glyph.raster.black(x, y) {
                count = count.saturating_add(1);
            }
        }
    }
    (count, width, height)
}

// What a font has of a code.
fn character(font: &Font, code: i32) -> Character<'_> {
    let place = u32::try_from(code).unwrap_or(u32::MAX);
    let packet = font.packet(place).unwrap_or(b"none");
    match font.glyph(place) {
        Some(glyph) => (
            font.width(code),
            black(glyph),
            Some((glyph.hoff, glyph.voff)),
            packet,
        ),
        None => (font.width(code), BLANK, None, packet),
    }
}

#[test]
fn characters(rt: HostRuntime) -> Result<(), Fail> {
    laws::decodings();
    for (row, (named, files, code, want)) in CHARACTERS.iter().enumerate() {
        let font = font(rt.alloc(), named, files)?;
        assert_eq!(rt; character(&font, *code), *want, "row {row}");
    }
    Ok(())
}

// A font: whether it is virtual, its size, and its first local font.
type Shape = (bool, u32, Option<i32>);

// A local font: its name, its area's length, its size and its design size.
type Local<'a> = Option<(&'a [u8], u8, u32, u32)>;

static LOCALS: [(Named, &'static [File; 4], i32, Shape, Local<'static>); 8] = [
    (
        DUO,
        &DUOS,
        0,
        (true, 128, Some(0)),
        Some((b"dot", 0, 128, 128)),
    ),
    (
        DUO,
        &DUOS,
        1,
        (true, 128, Some(0)),
        Some((b"bar", 0, 128, 128)),
    ),
    (DUO, &DUOS, 2, (true, 128, Some(0)), None),
    (
        (b"duo", 256, 128),
        &DUOS,
        1,
        (true, 256, Some(0)),
        Some((b"bar", 0, 256, 128)),
    ),
    (BOX, &RULES, 0, (true, 128, None), None),
    (DOT, &DOTS, 0, (false, 128, None), None),
    (DOT, &GENERIC, 0, (false, 128, None), None),
    (DOT, &BARE, 0, (false, 128, None), None),
];

fn fields(key: Option<&Arc<FontKey>>) -> Local<'_> {
    let key = key?;
    Some((key.name.bytes(), key.area, key.size, key.design))
}

#[test]
fn local_fonts(rt: HostRuntime) -> Result<(), Fail> {
    for (row, (named, files, number, shape, local)) in LOCALS.iter().enumerate() {
        let font = font(rt.alloc(), named, files)?;
        let seen = (font.is_virtual(), font.size(), font.first_local());
        assert_eq!(rt;
            (seen, fields(font.local(*number))),
            (*shape, *local),
            "row {row}"
        );
    }
    Ok(())
}
