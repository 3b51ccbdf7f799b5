//! Rows of a raster, and where they lie over rows of a bitmap.

ghost use Rattle.std.specs.Prelude.{◌≡◌, ◌+◌, ◌*◌, ◌%◌, ◌^◌, ◌<◌, ◌≤◌, length};

use crate::offset::Offset;
use crate::rows::Span;

/// How rows of a bitmap stand in their bytes: side by side, each in whole words of eight bytes.
// The bytes are an argument of their own. A struct with a `&mut` in it would need two clauses more
// in each function: that it still holds the same bytes, and that its rows are as long as before.
#[derive(Clone, Copy)]
pub struct Lower {
    /// How many bytes a row has.
    pub row_len: usize,
    ghost small: { row_len < 2 ^ 16 },
    ghost words: { row_len % 8 ≡ 0 },
}

/// The rows of a raster, side by side, and eight bytes more, so that a word can be read from each
/// byte of a row.
#[derive(Clone, Copy)]
pub struct Upper<'a> {
    pub bytes: &'a [u8],
    /// How many bytes a row has.
    pub stride: usize,
    /// How many rows there are.
    pub count: usize,
    ghost narrow: { stride < 2 ^ 16 },
    ghost few: { count < 2 ^ 16 },
    ghost whole: { count * stride + 8 ≤ length bytes.now },
}

/// Where a raster lies on a bitmap, so that each of some rows of the bitmap has a row above it.
#[derive(Clone, Copy)]
pub struct Placing {
    /// How the raster's columns lie over those of the bitmap.
    pub across: Offset,
    /// How its rows lie over those of the bitmap.
    pub down: Offset,
    /// The rows of the bitmap that lie under one of the raster's.
    pub rows: Span,
    ghost ordered: { rows.from ≤ rows.until },
    ghost reached: { rows.from < rows.until → down.start ≤ rows.from + down.skipped },
}
