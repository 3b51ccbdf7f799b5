//! Rasters.

ghost use Rattle.std.specs.Prelude.{◌≡◌, ◌<◌, ◌≤◌, ℕ, [], length, map, slice_index_or, IfOk};
ghost use Rattle.pk_runs.specs.Given.{rows_width, bitmap_of_rows};
ghost use Rattle.packed_rows.specs.Bitmap.{IsShaped, is_black};
ghost use Rattle.pk_runs.specs.Limits.{MAX_GLYPH_SIDE};

use crate::given::{paint_rows, row_len};
use packed_rows::PackedBitmap;
use std::alloc::{AllocError as NoMemory, Global};
use std::marker::Model;

/// A raster of black and white pixels, seen as its width, its height and its rows.
#[derive(Drop)]
pub struct Raster {
    pub(crate) bits: PackedBitmap,
}

impl Model for Raster {
    ghost use Rattle.std.specs.Prelude.{◌≤◌};
    ghost use Rattle.packed_rows.specs.Bitmap.{Bitmap, IsShaped};
    ghost use Rattle.pk_runs.specs.Limits.{MAX_GLYPH_SIDE};

    ghost Value = { Bitmap };

    ghost view = { λ r. r.bits };

    ghost invariant = { λ r. (r.bits.width ≤ MAX_GLYPH_SIDE) × (r.bits.height ≤ MAX_GLYPH_SIDE)
        × IsShaped r.bits };
}

/// A raster, and how far right and down of its upper left pixel the reference pixel lies.
#[derive(Drop)]
pub struct Glyph {
    pub raster: Raster,
    pub hoff: i32,
    pub voff: i32,
}

impl Raster {
    /// The raster of rows of one length, one value a pixel, true for black. Without rows the width
    /// is 0.
    pub fn of(alloc: Global, rows: &[Vec<bool>]) -> Result<Raster, NoMemory>
        requires low { length rows.now ≤ MAX_GLYPH_SIDE }
        requires narrow { rows_width (map (λ row. row.items) rows.now) ≤ MAX_GLYPH_SIDE }
        requires equal { (y : ℕ) → y < length rows.now →
            length (slice_index_or (map (λ row. row.items) rows.now) y [])
            ≡ rows_width (map (λ row. row.items) rows.now) }
        ensures { IfOk result (λ raster.
            raster ≡ bitmap_of_rows (map (λ row. row.items) rows.now)) }
    {
        let w = row_len(rows);
        let mut bits = PackedBitmap::white(alloc, w as u32, rows.len() as u32)?;
        paint_rows(&mut bits, rows, w);
        Ok(Raster { bits })
    }

    /// The raster of a packed bitmap, for whoever paints one by other means than runs.
    pub fn of_bits(bits: PackedBitmap) -> Raster
        requires narrow { bits.width ≤ MAX_GLYPH_SIDE }
        requires low { bits.height ≤ MAX_GLYPH_SIDE }
        requires shaped { IsShaped bits }
        ensures { result ≡ bits }
    {
        Raster { bits }
    }

    /// How many pixels a row has.
    pub fn width(&self) -> u32
        ensures value { result ≡ self.now.width }
        ensures narrow { result ≤ MAX_GLYPH_SIDE }
    {
        self.bits.width()
    }

    /// How many rows there are.
    pub fn height(&self) -> u32
        ensures value { result ≡ self.now.height }
        ensures low { result ≤ MAX_GLYPH_SIDE }
    {
        self.bits.height()
    }

    /// Whether pixel `x` of row `y` is black.
    pub fn black(&self, x: u32, y: u32) -> bool
        requires in_row { x < self.now.width }
        requires inside { y < self.now.height }
        ensures { result ≡ is_black self.now x y }
    {
        self.bits.is_black(x, y)
    }

    /// The pixels as a packed bitmap, for whoever sets the raster on a page.
    pub fn bits(&self) -> &PackedBitmap
        ensures value { result.now ≡ self.now }
        ensures narrow { result.now.width ≤ MAX_GLYPH_SIDE }
        ensures low { result.now.height ≤ MAX_GLYPH_SIDE }
        ensures shaped { IsShaped result.now }
    {
        &self.bits
    }
}
