//! The table of a font's glyphs.

use super::packed_fonts::numbers;
use pk_runs::{Glyph, GlyphTable, Raster};
use std::alloc::{AllocError as NoMemory, Global};
use std::test::Fail;

// A glyph without pixels, with an offset to the right.
fn glyph(alloc: Global, hoff: i32) -> Result<Glyph, NoMemory> {
    Ok(Glyph {
        raster: Raster::of(alloc, &[])?,
        hoff,
        voff: 0,
    })
}

// A code and its glyph, after one for 65, one for 300 and another one for 65.
static TABLE: [(u32, &[i64]); 4] = [
    (65, &[0, 0, 3, 0]),
    (300, &[0, 0, 2, 0]),
    (44, &[]),
    (301, &[]),
];

#[test]
fn glyph_tables(rt: HostRuntime) -> Result<(), Fail> {
    let mut table = GlyphTable::empty(rt.alloc())?;
    for (code, hoff) in [(65, 1), (300, 2), (65, 3)] {
        table.put(code, glyph(rt.alloc(), hoff)?)?;
    }
    for (row, (code, want)) in TABLE.iter().enumerate() {
        let glyph = numbers(rt.alloc(), table.get(*code))?;
        assert_eq!(rt; glyph.as_slice(), *want, "row {row}");
    }
    Ok(())
}
