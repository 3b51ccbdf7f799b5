//! The glyphs of a font by their codes, and what they weigh.
ghost use Rattle.std.specs.Prelude.{◌≡◌, ◌==◌, ◌≤◌, ℕ, IfOk, MatchOption, None, OnErr, OnOk, Some, if◌then◌else◌};
ghost use Rattle.pk_runs.specs.Glyphs.{glyph_of};
ghost use Rattle.pk_runs.specs.Weights.{MAX_GLYPH_BYTES, glyphs_weight, raster_bytes};

use crate::glyph::Glyph;
use crate::glyph_map::GlyphMap;
use std::alloc::{AllocError as NoMemory, Global};
use std::marker::Model;

/// The glyphs of a font by their codes, and the bytes that their rasters take together. A contract
/// sees it as the glyphs of the codes from 0 to 255 by their places and those of the others by
/// their codes; `glyph_of` says which one a code has, and `glyphs_weight` what they weigh.
#[derive(Drop)]
pub struct GlyphTable {
    glyphs: GlyphMap,
    weight: u64,
}

impl Model for GlyphTable {
    ghost use Rattle.pk_runs.specs.Glyphs.{Glyphs};
    ghost use Rattle.pk_runs.specs.Weights.{IsWeighed};

    ghost Value = { Glyphs };

    ghost view = { λ t. t.glyphs };

    ghost invariant = { λ t. IsWeighed t.glyphs t.weight };
}

// The bytes that the raster of a glyph takes, each row in whole bytes.
fn bytes_of(glyph: &Glyph) -> u64
    ensures bytes { result ≡ raster_bytes (Some glyph.now) }
    ensures few { result ≤ MAX_GLYPH_BYTES }
{
    let (width, height) = (glyph.raster.width(), glyph.raster.height());
    u64::from(height * width.div_ceil(8))
}

// The bytes that the raster of a code takes.
fn bytes_at(glyphs: &GlyphMap, c: u32) -> u64
    ensures { result ≡ raster_bytes (glyph_of glyphs.now c) }
{
    match glyphs.get(c) {
        Some(glyph) => bytes_of(glyph),
        None => 0,
    }
}

impl GlyphTable {
    /// A table without glyphs.
    pub fn empty(alloc: Global) -> Result<GlyphTable, NoMemory>
        ensures { IfOk result (λ table. (c : ℕ) → glyph_of table c ≡ None) }
    {
        Ok(GlyphTable {
            glyphs: GlyphMap::empty(alloc)?,
            weight: 0,
        })
    }

    /// Gives a code a glyph, in place of the one that it may have. `NoMemory` leaves the table as
    /// it was.
    pub fn put(&mut self, c: u32, glyph: Glyph) -> Result<(), NoMemory>
        ensures put { OnOk result ((k : ℕ) → glyph_of self.new k ≡
            (if c == k then Some glyph else glyph_of self.old k)) }
        ensures unchanged { OnErr result (self.new ≡ self.old) }
    {
        let replaced = bytes_at(&self.glyphs, c);
        let added = bytes_of(&glyph);
        self.glyphs.put(c, glyph)?;
        self.weight = self.weight - replaced + added;
        Ok(())
    }

    /// The glyph of a code, or `None` where it has none.
    #[inline(always)]
    pub fn get(&self, c: u32) -> Option<&Glyph>
        ensures { MatchOption result (glyph_of self.now c ≡ None)
            (λ g. glyph_of self.now c ≡ Some g.now) }
    {
        self.glyphs.get(c)
    }

    /// The bytes that the rasters take together, each row in whole bytes.
    pub fn weight(&self) -> u64
        ensures { result ≡ glyphs_weight self.now }
    {
        self.weight
    }
}
