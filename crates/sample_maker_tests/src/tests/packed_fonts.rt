//! Packed fonts, worked out by hand: with plain bitmaps, and packed.
ghost use Rattle.std.specs.Prelude.{◌≡◌, ◌≤◌, IfOk, IsTrue};
ghost use Rattle.pk_runs.specs.Limits.{MAX_RASTER_BYTES};
ghost use Rattle.sample_maker.specs.PkFile.{have_own_codes, size_sum};

use pk_packets::PkFont;
use pk_runs::{Glyph, raster};
use rows::{GLYPHS, PARTS, SHAPES};
use sample_maker::{pk_bytes, pk_packed};
use std::alloc::{AllocError as NoMemory, Global};
use std::test::Fail;

mod rows;

// The glyph, at most 1024 pixels wide and high.
fn drawn(alloc: Global, bytes: &[u8], w: u32, h: u32, hoff: i32, voff: i32) -> Result<Glyph, Fail>
    ensures width { IfOk result (λ glyph. glyph.raster.width ≤ 1024) }
    ensures height { IfOk result (λ glyph. glyph.raster.height ≤ 1024) }
{
    if w > 1024 || h > 1024 {
        return Err(Fail::from("too large"));
    }
    let raster = raster(alloc, bytes, 14, false, w, h)?;
    Ok(Glyph { raster, hoff, voff })
}

// One of the shapes with its code.
fn shape(alloc: Global, place: usize) -> Result<(u8, Glyph), Fail>
    ensures width { IfOk result (λ shape. shape.1.raster.width ≤ 1024) }
    ensures height { IfOk result (λ shape. shape.1.raster.height ≤ 1024) }
{
    let Some((code, bytes, w, h, hoff, voff)) = SHAPES.get(place) else {
        return Err(Fail::from("no shape"));
    };
    Ok((*code, drawn(alloc, bytes, *w, *h, *hoff, *voff)?))
}

// The file of these glyphs, packed or with plain bitmaps.
fn made(alloc: Global, is_packed: bool, glyphs: &[(u8, Glyph)]) -> Result<Vec<u8>, NoMemory>
    requires codes { IsTrue (have_own_codes glyphs.now) }
    requires few { size_sum glyphs.now ≤ MAX_RASTER_BYTES }
{
    if is_packed {
        pk_packed(alloc, glyphs)
    } else {
        pk_bytes(alloc, glyphs)
    }
}

// The file of two rows of no pixel, and a glyph after them.
fn empty_and_dot(alloc: Global, is_packed: bool) -> Result<Vec<u8>, Fail> {
    let empty = drawn(alloc, &[], 0, 2, 5, 0)?;
    let dot = drawn(alloc, &[0x80], 1, 1, 0, 0)?;
    Ok(made(alloc, is_packed, &[(1, empty), (0, dot)])?)
}

// The file of one of the shapes, of an empty glyph and a dot (4), or of no glyph (5).
fn file(alloc: Global, is_packed: bool, place: usize) -> Result<Vec<u8>, Fail> {
    match place {
        4 => empty_and_dot(alloc, is_packed),
        5 => Ok(made(alloc, is_packed, &[])?),
        _ => Ok(made(alloc, is_packed, &[shape(alloc, place)?])?),
    }
}

#[test]
fn files_have_these_bytes(rt: HostRuntime) -> Result<(), Fail> {
    for (is_packed, place, length, from, part) in PARTS.iter() {
        let bytes = file(rt.alloc(), *is_packed, *place)?;
        let until = from.wrapping_add(part.len());
        assert_eq!(rt;
            (bytes.len(), bytes.get(*from..until)),
            (*length, Some(*part)),
            "of the file {place}, from {from} on"
        );
    }
    Ok(())
}

// Size, offsets and how many pixels are black, of the glyph of a code.
fn told(font: &PkFont, code: u32) -> Option<(u32, u32, i32, i32, u32)> {
    let glyph = font.glyph(code)?;
    let mut count = 0u32;
    for y in 0..glyph.raster.height() {
        for x in 0..glyph.raster.width() {
            count = count.saturating_add(u32::from(glyph.raster.black(x, y)));
        }
    }
    let (width, height) = (glyph.raster.width(), glyph.raster.height());
    Some((width, height, glyph.hoff, glyph.voff, count))
}

// Whether a pixel of the glyph of a code is black; false outside it.
fn is_black(font: &PkFont, code: u32, x: u32, y: u32) -> bool {
    match font.glyph(code) {
        Some(glyph) if x < glyph.raster.width() && y < glyph.raster.height() => {
            glyph.raster.black(x, y)
        }
        _ => false,
    }
}

#[test]
fn glyphs_are_read_again(rt: HostRuntime) -> Result<(), Fail> {
    for (is_packed, place, code, wanted, (x, y, black)) in GLYPHS.iter() {
        let font = PkFont::read(rt.alloc(), &file(rt.alloc(), *is_packed, *place)?)?;
        assert_eq!(rt;
            (told(&font, *code), is_black(&font, *code, *x, *y)),
            (*wanted, *black),
            "of {code} in the file {place}"
        );
    }
    Ok(())
}
