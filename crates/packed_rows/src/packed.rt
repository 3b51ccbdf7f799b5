//! A bitmap of packed rows.

ghost use Rattle.std.specs.Prelude.{◌≡◌, ◌+◌, ◌^◌, ◌<◌, ◌≤◌, [], IfOk, slice_index_or};
ghost use Rattle.std.specs.List.{flat_map};
ghost use Rattle.packed_rows.specs.Bitmap.{is_black};
ghost use Rattle.packed_rows.specs.Changes.{white_bitmap, with_black, with_copies};
ghost use Rattle.packed_rows.specs.Joined.{IsWhiteFrom, with_word};
ghost use Rattle.packed_rows.specs.Packing.{row_text, pixels_of, IsPadded};
ghost use Rattle.packed_rows.specs.Stored.{bitmap_of, IsStored};

use crate::black::{blacken_rows, join_rows};
use crate::row::{is_black, row_bytes};
use crate::rows::{Span, copy_rows};
use std::alloc::{AllocError as NoMemory, Global};
use std::marker::Model;

/// A bitmap, seen as its width, its height and its rows of pixels. Its rows lie side by side. Eight
/// more bytes follow the last one, so that a word can be read from each byte of a row.
#[derive(Drop)]
pub struct PackedBitmap {
    width: u32,
    height: u32,
    bytes: Vec<u8>,
}

impl Model for PackedBitmap {
    ghost use Rattle.packed_rows.specs.Bitmap.{Bitmap};
    ghost use Rattle.packed_rows.specs.Stored.{bitmap_of, IsStored};

    ghost Value = { Bitmap };

    ghost view = { λ b. bitmap_of b.width b.height b.bytes.items };

    ghost invariant = { λ b. IsStored b.width b.height b.bytes.items };
}

impl PackedBitmap {
    /// A bitmap of white pixels, in one allocation that is filled with zeros. The only call that
    /// takes memory.
    pub fn white(alloc: Global, width: u32, height: u32) -> Result<PackedBitmap, NoMemory>
        requires narrow { width < 2 ^ 16 }
        requires low { height < 2 ^ 16 }
        ensures white { IfOk result (λ b. b ≡ white_bitmap width height) }
    {
        let bytes = vec![in alloc; 0; row_bytes(width) * height as usize + 8]?;
        Ok(PackedBitmap {
            width,
            height,
            bytes,
        })
    }

    /// How many pixels a row has.
    pub fn width(&self) -> u32
        ensures value { result ≡ self.now.width }
        ensures narrow { result < 2 ^ 16 }
    {
        self.width
    }

    /// How many rows there are.
    pub fn height(&self) -> u32
        ensures value { result ≡ self.now.height }
        ensures low { result < 2 ^ 16 }
    {
        self.height
    }

    /// Whether pixel `x` of row `y` is black.
    pub fn is_black(&self, x: u32, y: u32) -> bool
        requires in_row { x < self.now.width }
        requires inside { y < self.now.height }
        ensures { result ≡ is_black self.now x y }
    {
        is_black(self.row(y), x as usize)
    }

    /// Makes the pixels of some columns black in some rows, and leaves the others as they are.
    #[inline(always)]
    pub fn blacken(&mut self, columns: Span, rows: Span)
        requires columns_ordered { columns.from ≤ columns.until }
        requires columns_inside { columns.until ≤ self.old.width }
        requires rows_ordered { rows.from ≤ rows.until }
        requires rows_inside { rows.until ≤ self.old.height }
        ensures { self.new ≡ with_black self.old columns.from columns.until rows.from rows.until }
    {
        blacken_rows(&mut self.bytes, row_bytes(self.width), columns, rows);
    }

    /// Joins a word of pixels into some rows, of a bitmap at most sixty-four pixels wide.
    pub fn join_rows(&mut self, word: u64, rows: Span)
        requires narrow { self.old.width ≤ 64 }
        requires white { IsWhiteFrom self.old.width word }
        requires rows_ordered { rows.from ≤ rows.until }
        requires rows_inside { rows.until ≤ self.old.height }
        ensures { self.new ≡ with_word self.old word rows.from rows.until }
    {
        join_rows(&mut self.bytes, row_bytes(self.width), word, rows);
    }

    /// Makes the `copies` rows below row `y` copies of it.
    pub fn copy_down(&mut self, y: usize, copies: usize)
        requires { y + copies < self.old.height }
        ensures { self.new ≡ with_copies self.old y copies }
    {
        let stride = row_bytes(self.width);
        let rows = Span {
            from: y,
            until: y + 1 + copies,
        };
        copy_rows(&mut self.bytes, stride, rows);
    }

    /// The bytes of row `y`: eight pixels a byte, the first in the high bit, 1 for black, and zero
    /// bits after the last.
    pub fn row(&self, y: u32) -> &[u8]
        requires { y < self.now.height }
        ensures text { result.now ≡ row_text (slice_index_or self.now.rows y []) }
        ensures dots { pixels_of self.now.width result.now ≡ slice_index_or self.now.rows y [] }
        ensures padded { IsPadded self.now.width result.now }
    {
        let stride = row_bytes(self.width);
        let start = y as usize * stride;
        &self.bytes[start..start + stride]
    }

    /// The bytes of all rows, one after another.
    pub fn rows(&self) -> &[u8]
        ensures { result.now ≡ flat_map row_text self.now.rows }
    {
        &self.bytes[..row_bytes(self.width) * self.height as usize]
    }

    /// The bytes of all rows, and one word more.
    pub(crate) fn stored(&self) -> &[u8]
        ensures stored { IsStored self.now.width self.now.height result.now }
        ensures value { bitmap_of self.now.width self.now.height result.now ≡ self.now }
    {
        &self.bytes
    }
}
