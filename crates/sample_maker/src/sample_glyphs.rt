//! The glyphs of the sample, packed.
ghost use Rattle.std.specs.Prelude.{◌≡◌, IfOk, map};
ghost use Rattle.sample_maker.specs.Sample.{bar_glyph, dot_glyph, packed_bar_pk, packed_dot_pk};

use crate::pk_packed;
use pk_runs::{Glyph, Raster};
use std::alloc::{AllocError as NoMemory, Global};

// Two rows of two black pixels.
fn dot(alloc: Global) -> Result<Glyph, NoMemory>
    ensures { IfOk result (λ glyph. glyph ≡ dot_glyph) }
{
    let upper = Vec::from_slice(alloc, &[true, true])?;
    let lower = Vec::from_slice(alloc, &[true, true])?;
    Ok(Glyph {
        raster: Raster::of(alloc, &[upper, lower])?,
        hoff: 0,
        voff: 1,
    })
}

// Three rows with a white pixel between two black ones, and below them one of three black pixels.
fn bar(alloc: Global) -> Result<Glyph, NoMemory>
    ensures { IfOk result (λ glyph. glyph ≡ bar_glyph) }
{
    let first = Vec::from_slice(alloc, &[true, false, true])?;
    let second = Vec::from_slice(alloc, &[true, false, true])?;
    let third = Vec::from_slice(alloc, &[true, false, true])?;
    let last = Vec::from_slice(alloc, &[true, true, true])?;
    Ok(Glyph {
        raster: Raster::of(alloc, &[first, second, third, last])?,
        hoff: 0,
        voff: 3,
    })
}

/// The PK file of `dot`.
pub fn packed_dot(alloc: Global) -> Result<Vec<u8>, NoMemory>
    ensures { IfOk result (λ bytes. bytes.items ≡ packed_dot_pk) }
{
    pk_packed(alloc, &[(65, dot(alloc)?)])
}

/// The PK file of `bar`.
pub fn packed_bar(alloc: Global) -> Result<Vec<u8>, NoMemory>
    ensures { IfOk result (λ bytes. bytes.items ≡ packed_bar_pk) }
{
    pk_packed(alloc, &[(65, bar(alloc)?)])
}
