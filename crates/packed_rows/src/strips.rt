//! Strips: one word of each row of a raster, set on one word of each row below it.

ghost use Rattle.std.specs.Prelude.{◌≡◌, ℕ, ◌+◌, ◌-◌, ◌*◌, ◌^◌, ◌<◌, ◌≤◌, ◌&&◌, length, nat_lt, slice_index};
ghost use Rattle.std.specs.Int.{div_ceil};
ghost use Rattle.packed_rows.specs.Stored.{row_at};
ghost use Rattle.packed_rows.specs.Stamped.{part_over, pixel_over, strip_over, AreStamped};

use crate::placing::{Lower, Upper};
use crate::row::padded_bytes;
use crate::rows::Span;
use crate::words::{join_word, rotated_right, span_word, word_at};

/// Which word of each upper row is set on which word of the row below it.
#[derive(Clone, Copy)]
pub struct Strip {
    pub lower: Lower,
    /// The byte of the upper row at which its word begins.
    pub from: usize,
    /// By how many pixels the word is turned to the right.
    pub turn: usize,
    /// Which pixels of the turned word are set.
    pub mask: u64,
    /// The byte of the lower row at which its word begins.
    pub to: usize,
    ghost in_word: { turn < 64 },
    ghost inside: { to + 8 ≤ lower.row_len },
}

// How many bytes a row of a narrow raster has, and how many rows there are.
#[derive(Clone, Copy)]
struct Narrow {
    stride: usize,
    count: usize,
    ghost some: { 0 < stride },
    ghost in_word: { stride ≤ 7 },
    ghost few: { count < 2 ^ 16 },
}

// Sets a strip on some rows.
#[inline(always)]
fn stamp_rows(bytes: &mut [u8], upper: Upper, strip: Strip, rows: Span)
    requires whole { upper.count * strip.lower.row_len ≤ length bytes.old }
    requires begin { strip.from ≤ upper.stride }
    requires ordered { rows.from ≤ rows.until }
    requires few { rows.until ≤ upper.count }
    ensures len { length bytes.new ≡ length bytes.old }
    ensures dots { AreStamped strip.lower.row_len rows.from rows.until
        (λ x y. strip_over upper.entry.bytes.now (y * upper.entry.stride + strip.from)
        strip.turn strip.mask strip.to x) bytes.old bytes.new }
{
    let row_len = strip.lower.row_len;
    for step in 0..rows.until - rows.from {
        let y = rows.from + step;
        let start = y * row_len;
        let above = y * upper.stride + strip.from;
        let word = rotated_right(word_at(upper.bytes, above), strip.turn) & strip.mask;
        join_word(&mut bytes[start..start + row_len], strip.to, word);
    }
}

// Sets a strip on four rows. The lower two come first: in order, the compiler would add up the
// place of each row from that of the one before it.
#[inline(always)]
fn stamp_four(bytes: &mut [u8], upper: Upper, strip: Strip, from: usize)
    requires whole { upper.count * strip.lower.row_len ≤ length bytes.old }
    requires begin { strip.from ≤ upper.stride }
    requires few { from + 4 ≤ upper.count }
    ensures len { length bytes.new ≡ length bytes.old }
    ensures dots { AreStamped strip.lower.row_len from (from + 4)
        (λ x y. strip_over upper.entry.bytes.now (y * upper.entry.stride + strip.from)
        strip.turn strip.mask strip.to x) bytes.old bytes.new }
{
    let first_two = Span {
        from,
        until: from + 2,
    };
    let last_two = Span {
        from: from + 2,
        until: from + 4,
    };
    stamp_rows(bytes, upper, strip, last_two);
    stamp_rows(bytes, upper, strip, first_two);
}

// Sets a strip on the rows from row `from` on, which are too few for a turn of four.
#[inline(always)]
fn stamp_rest(bytes: &mut [u8], upper: Upper, strip: Strip, from: usize)
    requires whole { upper.count * strip.lower.row_len ≤ length bytes.old }
    requires begin { strip.from ≤ upper.stride }
    requires some { from ≤ upper.count }
    requires rest { upper.count < from + 4 }
    ensures len { length bytes.new ≡ length bytes.old }
    ensures dots { AreStamped strip.lower.row_len from upper.entry.count
        (λ x y. strip_over upper.entry.bytes.now (y * upper.entry.stride + strip.from)
        strip.turn strip.mask strip.to x) bytes.old bytes.new }
{
    let count = upper.count - from;
    // By a literal number of rows each takes no test.
    if count == 3 {
        let until = from + 3;
        stamp_rows(bytes, upper, strip, Span { from, until });
    } else if count == 2 {
        let until = from + 2;
        stamp_rows(bytes, upper, strip, Span { from, until });
    } else if count == 1 {
        let until = from + 1;
        stamp_rows(bytes, upper, strip, Span { from, until });
    }
}

/// Sets a strip of upper rows on as many rows.
// Four rows at a time, in one turn of a loop.
#[inline(always)]
pub fn stamp_strip(bytes: &mut [u8], upper: Upper, strip: Strip)
    requires whole { upper.count * strip.lower.row_len ≤ length bytes.old }
    requires begin { strip.from ≤ upper.stride }
    ensures len { length bytes.new ≡ length bytes.old }
    ensures dots { AreStamped strip.lower.row_len 0 upper.entry.count
        (λ x y. strip_over upper.entry.bytes.now (y * upper.entry.stride + strip.from)
        strip.turn strip.mask strip.to x) bytes.old bytes.new }
{
    let fours = upper.count / 4;
    for four in 0..fours {
        stamp_four(bytes, upper, strip, 4 * four);
    }
    stamp_rest(bytes, upper, strip, 4 * fours);
}

/// Sets upper rows on as many rows of `width` pixels, by one word each, their first pixels in
/// column `column`, from which on there is room for a word.
#[inline(always)]
pub fn stamp_inside(bytes: &mut [u8], width: u32, upper: Upper, column: usize, rows: Span)
    requires narrow { width < 2 ^ 16 }
    requires whole { rows.until * (8 * div_ceil width 64) ≤ length bytes.old }
    requires some { 0 < upper.stride }
    requires in_word { upper.stride ≤ 7 }
    requires room { column + 64 ≤ width }
    requires all { rows.until ≡ rows.from + upper.count }
    ensures len { length bytes.new ≡ length bytes.old }
    ensures bytes { (i : ℕ) → slice_index bytes.new i < 256 }
    ensures dots { AreStamped (8 * div_ceil width 64) rows.from rows.until
        (λ x y. nat_lt x width && pixel_over
        (row_at upper.entry.stride upper.entry.bytes.now (y - rows.from)) column 0 x)
        bytes.old bytes.new }
{
    let row_len = padded_bytes(width);
    let start = rows.from * row_len;
    let size = Narrow {
        stride: upper.stride,
        count: upper.count,
    };
    let below = &mut bytes[start..start + size.count * row_len];
    stamp_narrow(below, Lower { row_len }, upper.bytes, size, column);
}

// Sets upper rows on as many rows, their first pixels in column `column`.
// In a function of its own, for which the place of the first row is one number: inlined, its parts
// are added up anew for each of the four rows. Its arguments are two words each at most, so that
// they come in registers.
#[inline(never)]
fn stamp_narrow(bytes: &mut [u8], lower: Lower, upper: &[u8], size: Narrow, column: usize)
    requires whole { size.count * lower.row_len ≤ length bytes.old }
    requires room { column + 64 ≤ 8 * lower.row_len }
    requires upper_whole { size.count * size.stride + 8 ≤ length upper.now }
    ensures len { length bytes.new ≡ length bytes.old }
    ensures dots { AreStamped lower.row_len 0 size.count
        (λ x y. part_over upper.now (y * size.stride) column 0 0 (8 * size.stride) x)
        bytes.old bytes.new }
{
    let turn = column % 8;
    let stride = size.stride;
    let rows = Upper {
        bytes: upper,
        stride,
        count: size.count,
    };
    let strip = Strip {
        lower,
        from: 0,
        turn,
        mask: span_word(turn, turn + 8 * stride),
        to: column / 8,
    };
    stamp_strip(bytes, rows, strip);
}
