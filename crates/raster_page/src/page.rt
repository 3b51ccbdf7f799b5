//! The page.

ghost use Rattle.std.specs.Prelude.{◌≡◌, ℕ, ◌*◌, ◌<◌, ◌≤◌, ◌||◌, ◌↔◌, List, [], ◌∷◌, IfOk, IfSome, IsSome, length, slice_index, slice_index_or, take};
ghost use Rattle.std.specs.Int.{div_ceil};
ghost use Rattle.std.specs.List.{flat_map};
ghost use Rattle.packed_rows.specs.Bitmap.{Bitmap, is_black};
ghost use Rattle.packed_rows.specs.Coordinates.{IsCoordinate};
ghost use Rattle.packed_rows.specs.Packing.{row_text, pixels_of, IsPadded};
ghost use Rattle.raster_page.specs.Ink.{Inked, Dots, Bar, covers, page_of, with_mark};
ghost use Rattle.packed_rows.specs.Changes.{black_count};
ghost use Rattle.raster_page.specs.Limits.{MAX_PAGE_SIDE};

use crate::span::clipped;
use packed_rows::{PackedBitmap, PaddedBitmap};
use std::alloc::{AllocError as NoMemory, Global};
use std::marker::Model;

/// A page of black and white dots, counted from its upper left one.
#[derive(Drop)]
pub struct Page {
    dots: PaddedBitmap,
}

impl Model for Page {
    ghost use Rattle.std.specs.Prelude.{◌≤◌};
    ghost use Rattle.packed_rows.specs.Bitmap.{Bitmap};
    ghost use Rattle.raster_page.specs.Limits.{MAX_PAGE_SIDE};

    ghost Value = { Bitmap };

    ghost view = { λ p. p.dots };

    ghost invariant = { λ p. (1 ≤ p.dots.width) × (p.dots.width ≤ MAX_PAGE_SIDE)
        × (1 ≤ p.dots.height) × (p.dots.height ≤ MAX_PAGE_SIDE) };
}

impl Page {
    /// A page of `w` by `h` white dots. No other call of a page takes memory.
    pub fn blank(alloc: Global, w: u32, h: u32) -> Result<Page, NoMemory>
        requires wide { 1 ≤ w }
        requires narrow { w ≤ MAX_PAGE_SIDE }
        requires high { 1 ≤ h }
        requires low { h ≤ MAX_PAGE_SIDE }
        ensures white { IfOk result (λ page. page ≡ page_of w h []) }
    {
        Ok(Page {
            dots: PaddedBitmap::white(alloc, w, h)?,
        })
    }

    /// Makes all dots white. It takes no memory.
    pub fn clear(&mut self)
        ensures { self.new ≡ page_of self.old.width self.old.height [] }
    {
        self.dots.clear();
    }

    /// How many dots a row has.
    pub fn width(&self) -> u32
        ensures value { result ≡ self.now.width }
        ensures some { 1 ≤ result }
        ensures narrow { result ≤ MAX_PAGE_SIDE }
    {
        self.dots.width()
    }

    /// How many rows the page has.
    pub fn height(&self) -> u32
        ensures value { result ≡ self.now.height }
        ensures rows { length self.now.rows ≡ result }
        ensures some { 1 ≤ result }
        ensures low { result ≤ MAX_PAGE_SIDE }
    {
        self.dots.height()
    }

    /// Whether the dot in column `x` of row `y` is black.
    pub fn black(&self, x: u32, y: u32) -> bool
        requires in_row { x < self.now.width }
        requires on_page { y < self.now.height }
        ensures { result ≡ is_black self.now x y }
    {
        self.dots.is_black(x, y)
    }

    /// Makes the dots of the page inside a rectangle black: `w` dots wide and `h` dots high, with
    /// its upper left dot in column `x` of row `y`. The others stay. What lies beside the page is
    /// cut off.
    pub fn rule(&mut self, x: i64, y: i64, w: i64, h: i64)
        requires left { IsCoordinate x }
        requires top { IsCoordinate y }
        requires wide { IsCoordinate w }
        requires high { IsCoordinate h }

        ensures bar { self.new ≡ with_mark self.old (Bar x y w h) }
        ensures dots { (column row : ℕ) → column < self.old.width → row < self.old.height →
            is_black self.new column row
            ≡ (covers column row (Bar x y w h) || is_black self.old column row) }
        ensures marks { (marks : List Inked) →
            self.old ≡ page_of self.old.width self.old.height marks →
            self.new ≡ page_of self.old.width self.old.height (Bar x y w h ∷ marks) }
    {
        let columns = clipped(x, w, self.dots.width());
        let rows = clipped(y, h, self.dots.height());
        self.dots.blacken(columns, rows);
    }

    /// Makes the dots of the page black that lie on a black pixel of the bitmap, whose upper left
    /// pixel lies in column `x` of row `y`. The others stay. What lies beside the page is cut off.
    #[inline(always)]
    pub fn stamp(&mut self, bitmap: &PackedBitmap, x: i64, y: i64)
        requires left { IsCoordinate x }
        requires top { IsCoordinate y }

        ensures ink { self.new ≡ with_mark self.old (Dots bitmap.now x y) }
        ensures dots { (column row : ℕ) → column < self.old.width → row < self.old.height →
            is_black self.new column row
            ≡ (covers column row (Dots bitmap.now x y) || is_black self.old column row) }
        ensures marks { (marks : List Inked) →
            self.old ≡ page_of self.old.width self.old.height marks →
            self.new ≡ page_of self.old.width self.old.height (Dots bitmap.now x y ∷ marks) }
    {
        self.dots.stamp(bitmap, x, y);
    }

    /// The bytes of row `y`: eight dots a byte, the first in the high bit, 1 for black, and zero
    /// bits after the last.
    pub fn row(&self, y: u32) -> &[u8]
        requires { y < self.now.height }
        ensures text { result.now ≡ row_text (slice_index_or self.now.rows y []) }
        ensures dots { pixels_of self.now.width result.now ≡ slice_index_or self.now.rows y [] }
        ensures padded { IsPadded self.now.width result.now }
    {
        self.dots.row(y)
    }

    /// The bytes of row `y` with its padding: whole words of eight bytes, zero after those of the
    /// row.
    pub fn padded(&self, y: u32) -> &[u8]
        requires { y < self.now.height }
        ensures len { length result.now ≡ 8 * div_ceil self.now.width 64 }
        ensures row { take (div_ceil self.now.width 8) result.now
            ≡ row_text (slice_index_or self.now.rows y []) }
        ensures zero { (i : ℕ) → div_ceil self.now.width 8 ≤ i → slice_index result.now i ≡ 0 }
    {
        self.dots.padded(y)
    }

    /// The bytes of all rows, one after another, where no padding stands between them: where a row
    /// takes whole words by itself. `None` where padding does.
    pub fn rows(&self) -> Option<&[u8]>
        ensures some { IsSome result
            ↔ (div_ceil self.now.width 8 ≡ 8 * div_ceil self.now.width 64) }
        ensures text { IfSome result (λ bytes. bytes.now ≡ flat_map row_text self.now.rows) }
    {
        self.dots.rows()
    }

    /// How many dots are black.
    pub fn count(&self) -> u64
        ensures { result ≡ black_count self.now }
    {
        self.dots.count()
    }
}
