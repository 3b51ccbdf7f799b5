//! A bitmap whose rows are padded to whole words.

ghost use Rattle.std.specs.Prelude.{◌≡◌, ℕ, ◌+◌, ◌*◌, ◌^◌, ◌<◌, ◌≤◌, ◌↔◌, [], IfOk, IfSome, IsSome, IsTrue, length, replicate, slice_index, slice_index_or, take};
ghost use Rattle.std.specs.Int.{div_ceil};
ghost use Rattle.std.specs.List.{flat_map};
ghost use Rattle.packed_rows.specs.Bitmap.{is_black};
ghost use Rattle.packed_rows.specs.Coordinates.{IsCoordinate};
ghost use Rattle.packed_rows.specs.Changes.{white_bitmap, with_black, black_count};
ghost use Rattle.packed_rows.specs.Stamped.{with_raster};
ghost use Rattle.packed_rows.specs.Packing.{row_text, pixels_of, IsPadded};
ghost use Rattle.packed_rows.specs.Stored.{bitmap_of, IsStored};

use crate::black::blacken_rows;
use crate::offset::{Offset, offset_of, reached};
use crate::ones::count_ones;
use crate::packed::PackedBitmap;
use crate::pieces::stamp_over;
use crate::placing::{Placing, Upper};
use crate::row::{is_black, padded_bytes, row_bytes};
use crate::rows::Span;
use crate::strips::stamp_inside;
use std::alloc::{AllocError as NoMemory, Global};
use std::marker::Model;

/// A bitmap, seen as its width, its height and its rows of pixels. Each row takes whole words of
/// eight bytes, and what follows its last pixel is zero. One more word follows the last row, so
/// that a word can be read from each byte of a row.
#[derive(Drop)]
pub struct PaddedBitmap {
    width: u32,
    height: u32,
    bytes: Vec<u8>,
}

impl Model for PaddedBitmap {
    ghost use Rattle.packed_rows.specs.Bitmap.{Bitmap};
    ghost use Rattle.packed_rows.specs.Stored.{padded_bitmap_of, IsStoredPadded};

    ghost Value = { Bitmap };

    ghost view = { λ b. padded_bitmap_of b.width b.height b.bytes.items };

    ghost invariant = { λ b. IsStoredPadded b.width b.height b.bytes.items };
}

// Makes all pixels of the bytes white.
fn whiten(bytes: &mut Vec<u8>)
    ensures { bytes.new.items ≡ replicate (length bytes.old.items) 0 }
{
    bytes.fill(0);
}

// The rows of a raster, to be set on others.
fn upper_of(raster: &PackedBitmap) -> Upper<'_>
    ensures stored { IsStored raster.now.width raster.now.height result.bytes.now }
    ensures value { bitmap_of raster.now.width raster.now.height result.bytes.now ≡ raster.now }
    ensures stride { result.stride ≡ div_ceil raster.now.width 8 }
    ensures count { result.count ≡ raster.now.height }
{
    Upper {
        bytes: raster.stored(),
        stride: row_bytes(raster.width()),
        count: raster.height() as usize,
    }
}

impl PaddedBitmap {
    /// A bitmap of white pixels, in one allocation that is filled with zeros. The only call that
    /// takes memory.
    pub fn white(alloc: Global, width: u32, height: u32) -> Result<PaddedBitmap, NoMemory>
        requires narrow { width < 2 ^ 16 }
        requires low { height < 2 ^ 16 }
        ensures white { IfOk result (λ b. b ≡ white_bitmap width height) }
    {
        let bytes = vec![in alloc; 0; padded_bytes(width) * height as usize + 8]?;
        Ok(PaddedBitmap {
            width,
            height,
            bytes,
        })
    }

    /// Makes all pixels white. It takes no memory.
    pub fn clear(&mut self)
        ensures { self.new ≡ white_bitmap self.old.width self.old.height }
    {
        whiten(&mut self.bytes);
    }

    /// How many pixels a row has.
    pub fn width(&self) -> u32
        ensures value { result ≡ self.now.width }
        ensures narrow { result < 2 ^ 16 }
    {
        self.width
    }

    /// How many rows there are.
    pub fn height(&self) -> u32
        ensures value { result ≡ self.now.height }
        ensures rows { length self.now.rows ≡ result }
        ensures low { result < 2 ^ 16 }
    {
        self.height
    }

    /// Whether pixel `x` of row `y` is black.
    pub fn is_black(&self, x: u32, y: u32) -> bool
        requires in_row { x < self.now.width }
        requires inside { y < self.now.height }
        ensures { result ≡ is_black self.now x y }
    {
        is_black(self.row(y), x as usize)
    }

    /// Makes the pixels of some columns black in some rows, and leaves the others as they are.
    #[inline(never)]
    pub fn blacken(&mut self, columns: Span, rows: Span)
        requires columns_ordered { columns.from ≤ columns.until }
        requires columns_inside { columns.until ≤ self.old.width }
        requires rows_ordered { rows.from ≤ rows.until }
        requires rows_inside { rows.until ≤ self.old.height }
        ensures { self.new ≡ with_black self.old columns.from columns.until rows.from rows.until }
    {
        blacken_rows(&mut self.bytes, padded_bytes(self.width), columns, rows);
    }

    /// Sets a raster on the bitmap, with its upper left pixel in column `x` of row `y`: the pixels
    /// that lie on a black one of the raster become black, the others stay. What lies beside the
    /// bitmap is cut off.
    // Nearly all rasters are narrow and have room: that way is short, and takes one word a row.
    #[inline(always)]
    pub fn stamp(&mut self, raster: &PackedBitmap, x: i64, y: i64)
        requires left { IsCoordinate x }
        requires top { IsCoordinate y }
        ensures { self.new ≡ with_raster self.old raster.now x y }
    {
        let column = offset_of(x);
        let row = offset_of(y);
        if self.has_columns(raster, column) && self.has_rows(raster, row) {
            let upper = upper_of(raster);
            let rows = Span {
                from: row.start,
                until: row.start + upper.count,
            };
            let width = self.width;
            stamp_inside(&mut self.bytes, width, upper, column.start, rows);
        } else {
            self.stamp_pieces(raster, x, y);
        }
    }

    // Whether a raster with that offset is narrow, and a word has room from its first column on.
    #[inline(always)]
    fn has_columns(&self, raster: &PackedBitmap, column: Offset) -> bool
        ensures right { IsTrue result → column.skipped ≡ 0 }
        ensures some { IsTrue result → 1 ≤ raster.now.width }
        ensures narrow { IsTrue result → raster.now.width ≤ 56 }
        ensures room { IsTrue result → column.start + 64 ≤ self.now.width }
    {
        let side = raster.width();
        column.skipped == 0 && 1 <= side && side <= 56 && column.start + 64 <= self.width as usize
    }

    // Whether all rows of a raster with that offset lie inside.
    #[inline(always)]
    fn has_rows(&self, raster: &PackedBitmap, row: Offset) -> bool
        ensures below { IsTrue result → row.skipped ≡ 0 }
        ensures low { IsTrue result → row.start + raster.now.height ≤ self.now.height }
    {
        row.skipped == 0 && row.start + raster.height() as usize <= self.height as usize
    }

    // Sets any raster, piece by piece.
    #[inline(never)]
    fn stamp_pieces(&mut self, raster: &PackedBitmap, x: i64, y: i64)
        requires left { IsCoordinate x }
        requires top { IsCoordinate y }
        ensures { self.new ≡ with_raster self.old raster.now x y }
    {
        let across = offset_of(x);
        let down = offset_of(y);
        let upper = upper_of(raster);
        let rows = reached(down, upper.count, self.height);
        let placing = Placing { across, down, rows };
        let width = self.width;
        stamp_over(&mut self.bytes, width, upper, placing);
    }

    /// The bytes of row `y` without its padding: eight pixels a byte, the first in the high bit, 1
    /// for black, and zero bits after the last.
    pub fn row(&self, y: u32) -> &[u8]
        requires { y < self.now.height }
        ensures text { result.now ≡ row_text (slice_index_or self.now.rows y []) }
        ensures dots { pixels_of self.now.width result.now ≡ slice_index_or self.now.rows y [] }
        ensures padded { IsPadded self.now.width result.now }
    {
        let start = y as usize * padded_bytes(self.width);
        &self.bytes[start..start + row_bytes(self.width)]
    }

    /// The bytes of row `y` with its padding: whole words of eight bytes, zero after those of the
    /// row.
    pub fn padded(&self, y: u32) -> &[u8]
        requires { y < self.now.height }
        ensures len { length result.now ≡ 8 * div_ceil self.now.width 64 }
        ensures row { take (div_ceil self.now.width 8) result.now
            ≡ row_text (slice_index_or self.now.rows y []) }
        ensures zero { (i : ℕ) → div_ceil self.now.width 8 ≤ i → slice_index result.now i ≡ 0 }
    {
        let stride = padded_bytes(self.width);
        let start = y as usize * stride;
        &self.bytes[start..start + stride]
    }

    /// The bytes of all rows, one after another, where no padding stands between them: where a row
    /// takes whole words by itself. `None` where it does.
    pub fn rows(&self) -> Option<&[u8]>
        ensures some { IsSome result
            ↔ (div_ceil self.now.width 8 ≡ 8 * div_ceil self.now.width 64) }
        ensures text { IfSome result (λ bytes. bytes.now ≡ flat_map row_text self.now.rows) }
    {
        let stride = padded_bytes(self.width);
        if row_bytes(self.width) == stride {
            Some(&self.bytes[..stride * self.height as usize])
        } else {
            None
        }
    }

    /// How many pixels are black.
    pub fn count(&self) -> u64
        ensures { result ≡ black_count self.now }
    {
        count_ones(&self.bytes[..padded_bytes(self.width) * self.height as usize])
    }
}
