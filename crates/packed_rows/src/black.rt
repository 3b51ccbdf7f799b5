//! Columns made black in rows.

ghost use Rattle.std.specs.Prelude.{◌≡◌, ℕ, ◌+◌, ◌*◌, ◌/◌, ◌^◌, ◌<◌, ◌≤◌, ◌&&◌, ◌||◌, length, slice_index};
ghost use Rattle.packed_rows.specs.Packing.{pixel, IsPadded};
ghost use Rattle.packed_rows.specs.Changes.{is_within};
ghost use Rattle.packed_rows.specs.Joined.{IsWhiteFrom};
ghost use Rattle.packed_rows.specs.Stamped.{word_pixel};
ghost use Rattle.packed_rows.specs.Stored.{row_at};

use crate::rows::{Span, blacken_bytes};
use crate::words::{join_word, span_word};

/// Makes the pixels of some columns black in some rows, each of `stride` bytes: by one word a row
/// where the columns lie in eight bytes of it, else by whole bytes with a mask at either end.
#[inline(always)]
pub fn blacken_rows(bytes: &mut [u8], stride: usize, columns: Span, rows: Span)
    requires small { stride < 2 ^ 20 }
    requires few { rows.until < 2 ^ 20 }
    requires ordered { columns.from ≤ columns.until }
    requires turned { rows.from ≤ rows.until }
    requires inside { columns.until ≤ 8 * stride }
    requires whole { rows.until * stride + 8 ≤ length bytes.old }
    ensures len { length bytes.new ≡ length bytes.old }
    ensures bytes { (i : ℕ) → slice_index bytes.new i < 256 }
    ensures dots { (x y : ℕ) → x < 8 * stride → y * stride + stride ≤ length bytes.old →
        pixel (row_at stride bytes.new y) x ≡
        (is_within columns.from columns.until x && is_within rows.from rows.until y
        || pixel (row_at stride bytes.old y) x) }
    ensures padded { (width y : ℕ) → columns.until ≤ width →
        y * stride + stride ≤ length bytes.old →
        IsPadded width (row_at stride bytes.old y) → IsPadded width (row_at stride bytes.new y) }
{
    if columns.from < columns.until && columns.until <= 8 * (columns.from / 8) + 64 {
        blacken_words(bytes, stride, columns, rows);
    } else {
        blacken_bytes(bytes, stride, columns, rows);
    }
}

// Makes the pixels of some columns black that lie in eight bytes of a row. At a row's end the word
// reaches into the next row, and is white there.
#[inline(always)]
fn blacken_words(bytes: &mut [u8], stride: usize, columns: Span, rows: Span)
    requires small { stride < 2 ^ 20 }
    requires few { rows.until < 2 ^ 20 }
    requires some { columns.from < columns.until }
    requires turned { rows.from ≤ rows.until }
    requires inside { columns.until ≤ 8 * stride }
    requires in_word { columns.until ≤ 8 * (columns.from / 8) + 64 }
    requires whole { rows.until * stride + 8 ≤ length bytes.old }
    ensures len { length bytes.new ≡ length bytes.old }
    ensures dots { (x y : ℕ) → x < 8 * stride → y * stride + stride ≤ length bytes.old →
        pixel (row_at stride bytes.new y) x ≡
        (is_within columns.from columns.until x && is_within rows.from rows.until y
        || pixel (row_at stride bytes.old y) x) }
    ensures padded { (width y : ℕ) → columns.until ≤ width →
        y * stride + stride ≤ length bytes.old →
        IsPadded width (row_at stride bytes.old y) → IsPadded width (row_at stride bytes.new y) }
{
    let first = columns.from / 8;
    let word = span_word(columns.from % 8, columns.until - 8 * first);
    for y in rows.from..rows.until {
        join_word(bytes, y * stride + first, word);
    }
}

/// Joins a word into some rows, each of `stride` bytes, at most eight. At a row's end the word
/// reaches into the next row, and is white there.
pub fn join_rows(bytes: &mut [u8], stride: usize, word: u64, rows: Span)
    requires small { stride ≤ 8 }
    requires few { rows.until < 2 ^ 20 }
    requires turned { rows.from ≤ rows.until }
    requires whole { rows.until * stride + 8 ≤ length bytes.old }
    requires white { IsWhiteFrom (8 * stride) word }
    ensures len { length bytes.new ≡ length bytes.old }
    ensures bytes { (i : ℕ) → slice_index bytes.new i < 256 }
    ensures dots { (x y : ℕ) → x < 8 * stride → y * stride + stride ≤ length bytes.old →
        pixel (row_at stride bytes.new y) x ≡
        (is_within rows.from rows.until y && word_pixel word x
        || pixel (row_at stride bytes.old y) x) }
{
    for y in rows.from..rows.until {
        join_word(bytes, y * stride, word);
    }
}
