//! Where a stretch of a line meets a side of the page.

ghost use Rattle.std.specs.Prelude.{◌≡◌, ℕ, ◌<◌, ◌≤◌, pos, ◌+ℤ◌, ◌≤ℤ◌, ◌&&◌, int_le, int_lt};
ghost use Rattle.std.specs.Int.{int_max, int_min};
ghost use Rattle.packed_rows.specs.Coordinates.{IsCoordinate};
ghost use Rattle.packed_rows.specs.Changes.{is_within};

use packed_rows::Span;

// Where a stretch ends, from `from` on: at its own end, or where the side ends.
fn cut_end(end: i64, from: i64, side: i64) -> i64
    requires { from ≤ℤ side }
    ensures value { result ≡ int_max from (int_min end side) }
    ensures ordered { from ≤ℤ result }
    ensures inside { result ≤ℤ side }
{
    end.clamp(from, side)
}

/// The places on a side of n dots that a stretch of `len` dots from `at` covers.
pub fn clipped(at: i64, len: i64, side: u32) -> Span
    requires at { IsCoordinate at }
    requires len { IsCoordinate len }
    ensures ordered { result.from ≤ result.until }
    ensures inside { result.until ≤ side }
    ensures covered { (p : ℕ) → p < side → is_within result.from result.until p
        ≡ (int_le at (pos p) && int_lt (pos p) (at +ℤ len)) }
{
    let side = i64::from(side);
    let from = at.clamp(0, side);
    let until = cut_end(at + len, from, side);
    Span {
        from: from as usize,
        until: until as usize,
    }
}
