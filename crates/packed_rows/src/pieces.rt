//! Rasters set on rows in pieces: up to eight bytes of each of the raster's rows, joined into one
//! word of the row below it or into two side by side.

ghost use Rattle.std.specs.Prelude.{◌≡◌, ℕ, ◌+◌, ◌-◌, ◌*◌, ◌%◌, ◌^◌, ◌<◌, ◌≤◌, ◌&&◌, length, nat_lt, slice_index};
ghost use Rattle.std.specs.Int.{div_ceil};
ghost use Rattle.packed_rows.specs.declared.offset.TheConstants.{MAX_COORDINATE};
ghost use Rattle.packed_rows.specs.Stored.{row_at};
ghost use Rattle.packed_rows.specs.Stamped.{part_over, pixel_over, AreStamped};

use crate::offset::Offset;
use crate::placing::{Lower, Placing, Upper};
use crate::row::padded_bytes;
use crate::rows::Span;
use crate::strips::{Strip, stamp_strip};
use crate::words::span_word;

// A piece: the pixels of each upper row from a byte on. The first of them lies over pixel
// `start - skipped` of the row below, and what is skipped is whole words.
#[derive(Clone, Copy)]
struct Piece {
    lower: Lower,
    // The byte of the upper row at which it begins.
    from: usize,
    start: usize,
    skipped: usize,
    ghost start_near: { start ≤ 2 * MAX_COORDINATE },
    ghost skipped_near: { skipped ≤ 2 * MAX_COORDINATE },
    ghost aligned: { skipped % 64 ≡ 0 },
}

// Sets some pixels of a piece. They lie in one word of the row, or before the row.
fn stamp_part(bytes: &mut [u8], upper: Upper, piece: Piece, part: Span)
    requires whole { upper.count * piece.lower.row_len ≤ length bytes.old }
    requires begin { piece.from ≤ upper.stride }
    requires ordered { part.from ≤ part.until }
    requires word { part.until ≤ 64 }
    requires one_word { (piece.start + part.from) % 64 + (part.until - part.from) ≤ 64 }
    requires inside { piece.start + part.until ≤ 8 * piece.lower.row_len + piece.skipped }
    ensures len { length bytes.new ≡ length bytes.old }
    ensures dots { AreStamped piece.lower.row_len 0 upper.entry.count
        (λ x y. part_over upper.entry.bytes.now (y * upper.entry.stride + piece.from)
        piece.start piece.skipped part.from part.until x) bytes.old bytes.new }
{
    let first = piece.start + part.from;
    if part.from == part.until || first < piece.skipped {
        return;
    }
    let column = first - piece.skipped;
    let begin = column % 64;
    let strip = Strip {
        lower: piece.lower,
        from: piece.from,
        turn: piece.start % 64,
        mask: span_word(begin, begin + (part.until - part.from)),
        to: 8 * (column / 64),
    };
    stamp_strip(bytes, upper, strip);
}

// Sets the first `len` pixels of a piece, up to sixty-four: in one word, and in the next where they
// go on there.
fn stamp_piece(bytes: &mut [u8], upper: Upper, piece: Piece, len: usize)
    requires whole { upper.count * piece.lower.row_len ≤ length bytes.old }
    requires begin { piece.from ≤ upper.stride }
    requires word { len ≤ 64 }
    requires inside { piece.start + len ≤ 8 * piece.lower.row_len + piece.skipped }
    ensures len { length bytes.new ≡ length bytes.old }
    ensures dots { AreStamped piece.lower.row_len 0 upper.entry.count
        (λ x y. part_over upper.entry.bytes.now (y * upper.entry.stride + piece.from)
        piece.start piece.skipped 0 len x) bytes.old bytes.new }
{
    let border = (64 - piece.start % 64).min(len);
    let first = Span {
        from: 0,
        until: border,
    };
    let second = Span {
        from: border,
        until: len,
    };
    stamp_part(bytes, upper, piece, first);
    stamp_part(bytes, upper, piece, second);
}

// Sets the first `kept` pixels of upper rows on as many rows, piece by piece. The pieces that lie
// wholly before the row are left out.
fn stamp_pieces(bytes: &mut [u8], lower: Lower, upper: Upper, across: Offset, kept: usize)
    requires whole { upper.count * lower.row_len ≤ length bytes.old }
    requires kept { kept ≤ 8 * upper.stride }
    requires inside { 0 < kept → across.start + kept ≤ 8 * lower.row_len + across.skipped }
    ensures len { length bytes.new ≡ length bytes.old }
    ensures dots { AreStamped lower.row_len 0 upper.entry.count
        (λ x y. part_over upper.entry.bytes.now (y * upper.entry.stride)
        across.start across.skipped 0 kept x) bytes.old bytes.new }
{
    let words = across.skipped.div_ceil(64);
    let start = across.start + 64 * words - across.skipped;
    let first = words.saturating_sub(start / 64 + 1);
    for piece in first..kept.div_ceil(64) {
        let len = (kept - 64 * piece).min(64);
        let moved = Piece {
            lower,
            from: 8 * piece,
            start: start + 64 * piece,
            skipped: 64 * words,
        };
        stamp_piece(bytes, upper, moved, len);
    }
}

/// Sets a raster on rows of `width` pixels, piece by piece.
pub fn stamp_over(bytes: &mut [u8], width: u32, upper: Upper, placing: Placing)
    requires narrow { width < 2 ^ 16 }
    requires whole { placing.rows.until * (8 * div_ceil width 64) ≤ length bytes.old }
    requires above { placing.rows.from < placing.rows.until →
        placing.rows.until + placing.down.skipped - placing.down.start ≤ upper.count }
    ensures len { length bytes.new ≡ length bytes.old }
    ensures bytes { (i : ℕ) → slice_index bytes.new i < 256 }
    ensures dots { AreStamped (8 * div_ceil width 64) placing.rows.from placing.rows.until
        (λ x y. nat_lt x width && pixel_over (row_at upper.entry.stride upper.entry.bytes.now
        (y + placing.down.skipped - placing.down.start))
        placing.across.start placing.across.skipped x) bytes.old bytes.new }
{
    let (across, down, rows) = (placing.across, placing.down, placing.rows);
    if rows.from == rows.until {
        return;
    }
    let row_len = padded_bytes(width);
    // What lies after the lower row's last pixel is cut off.
    let room = (width as usize + across.skipped).saturating_sub(across.start);
    let kept = room.min(8 * upper.stride);
    let count = rows.until - rows.from;
    let start = rows.from * row_len;
    let below = &mut bytes[start..start + count * row_len];
    let first = rows.from + down.skipped - down.start;
    let above = Upper {
        bytes: &upper.bytes[first * upper.stride..],
        stride: upper.stride,
        count,
    };
    stamp_pieces(below, Lower { row_len }, above, across, kept);
}
