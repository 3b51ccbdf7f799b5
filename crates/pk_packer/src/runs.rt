//! The written runs, one after another.

ghost use Rattle.std.specs.Prelude.{◌≡◌, ◌+◌, ◌*◌, ◌^◌, ◌<◌, ◌≤◌, ◌∷◌, ℕ, List, [], IsTrue, MatchOption, false, not};
ghost use Rattle.pk_runs.specs.Numbers.{Item, Run};
ghost use Rattle.pk_runs.specs.Limits.{MAX_GLYPH_SIDE};
ghost use Rattle.pk_packer.specs.Written.{pixel_rows, with_count, written_runs};
ghost use Rattle.pk_packer.specs.Places.{IsPlace, IsReached, pixels_after, row_of};

use crate::places::{Place, next_colour, row_begin};
use crate::rows::equal_below;
use packed_rows::PackedBitmap;

/// A run, the repeat count before it, or 0, and the place behind it.
#[derive(Clone, Copy)]
pub struct Step {
    pub count: u32,
    pub len: u32,
    pub after: Place,
}

/// The run that begins at a place, if one does.
#[inline(always)]
pub fn next_run(bits: &PackedBitmap, place: Place) -> Option<Step>
    requires some { 1 ≤ bits.now.width }
    requires narrow { bits.now.width ≤ MAX_GLYPH_SIDE }
    requires short { bits.now.height ≤ MAX_GLYPH_SIDE }
    requires place { IsPlace bits.now place }
    ensures step { (items : List Item) → IsReached bits.now place items →
        MatchOption result (items ≡ written_runs (pixel_rows bits.now))
        (λ s. IsReached bits.now s.after (Run s.len ∷ with_count s.count items)) }
    ensures place { MatchOption result (Unit {0}) (λ s. IsPlace bits.now s.after) }
    ensures some { MatchOption result (Unit {0}) (λ s. 1 ≤ s.len) }
    ensures count { MatchOption result (Unit {0}) (λ s. s.count ≤ bits.now.height) }
    ensures passed { MatchOption result (Unit {0}) (λ s.
        pixels_after bits.now s.after + s.len ≤ pixels_after bits.now place) }
{
    if place.row >= bits.height() {
        return None;
    }
    let mut len = 0;
    let mut after = Place { due: 0, ..place };
    while goes_on(bits, after, place.black) {
        len += after.end - after.column;
        if after.end < bits.width() {
            return Some(Step {
                count: place.due,
                len,
                after: next_colour(bits, after),
            });
        }
        let below = same_below(bits, after);
        len += below.pixels;
        after = row_begin(bits, after.row + 1 + after.copies + below.rows);
    }
    Some(Step {
        count: place.due,
        len,
        after,
    })
}

// Whether the colour of a run begins at a place.
#[inline(always)]
fn goes_on(bits: &PackedBitmap, place: Place, black: bool) -> bool
    ensures row { IsTrue result → place.row < bits.now.height }
    ensures colour { IsTrue result → place.black ≡ black }
    ensures ends { result ≡ false → place.row < bits.now.height → place.black ≡ not black }
{
    place.row < bits.height() && place.black == black
}

// Rows that go on with a run, and how many pixels they have.
#[derive(Clone, Copy)]
struct Below {
    rows: u32,
    pixels: u32,
}

// The rows that equal a row of one colour, below it; none where the place isn't at the beginning of
// a row, nor where rows have more than seven bytes: those are passed by the search for their runs.
// Most often the next row's first pixel tells already that there is none.
fn same_below(bits: &PackedBitmap, place: Place) -> Below
    requires some { 1 ≤ bits.now.width }
    requires narrow { bits.now.width ≤ MAX_GLYPH_SIDE }
    requires short { bits.now.height ≤ MAX_GLYPH_SIDE }
    requires inside { place.row < bits.now.height }
    requires fit { place.row + 1 + place.copies ≤ bits.now.height }
    ensures fit { place.row + 1 + place.copies + result.rows ≤ bits.now.height }
    ensures same { (k : ℕ) → k < result.rows →
        row_of (pixel_rows bits.now) (place.row + 1 + place.copies + k)
        ≡ row_of (pixel_rows bits.now) place.row }
    ensures begins { 1 ≤ result.rows → place.column ≡ 0 }
    ensures pixels { result.pixels ≡ result.rows * bits.now.width }
{
    let next = place.row + 1;
    if place.column > 0 || place.copies > 0 || bits.width() > 56 {
        return Below { rows: 0, pixels: 0 };
    }
    if next < bits.height() && bits.is_black(0, next) != place.black {
        return Below { rows: 0, pixels: 0 };
    }
    let rows = equal_below(bits, 0, place.row);
    Below {
        rows,
        pixels: rows * bits.width(),
    }
}
