//! Places in a raster, from which its written runs go on.

ghost use Rattle.std.specs.Prelude.{◌≡◌, ◌<◌, ◌≤◌, ℕ, List, drop, false, not, slice_index_or};
ghost use Rattle.pk_runs.specs.Limits.{MAX_GLYPH_SIDE};
ghost use Rattle.pk_runs.specs.Numbers.{Item};
ghost use Rattle.pk_packer.specs.Written.{first_colour, pixel_rows, with_rows, written_rows};
ghost use Rattle.pk_packer.specs.Places.{IsPlace, items_from, row_of};

use crate::row::{begins_black, run_end};
use crate::rows::copies_below;
use packed_rows::PackedBitmap;

/// A place in a raster. The row has `copies` below it that are not written, and `due` is its repeat
/// count as long as no run began in the row, then 0. From the place up to column `end` all pixels
/// are black, or all white.
#[derive(Clone, Copy)]
pub struct Place {
    pub row: u32,
    pub column: u32,
    pub copies: u32,
    pub due: u32,
    pub end: u32,
    pub black: bool,
}

/// The beginning of a row, or the place behind the last one.
#[inline(always)]
pub fn row_begin(bits: &PackedBitmap, row: u32) -> Place
    requires some { 1 ≤ bits.now.width }
    requires narrow { bits.now.width ≤ MAX_GLYPH_SIDE }
    requires low { row ≤ bits.now.height }
    ensures place { IsPlace bits.now result }
    ensures row { result.row ≡ row }
    ensures column { result.column ≡ 0 }
    ensures small { result.due ≤ result.copies }
    ensures more { (items : List Item) → items_from (pixel_rows bits.now) result items
        ≡ with_rows (first_colour (pixel_rows bits.now)) items
        (written_rows (drop row (pixel_rows bits.now))) }
{
    if row >= bits.height() {
        return Place {
            row,
            column: 0,
            copies: 0,
            due: 0,
            end: 0,
            black: false,
        };
    }
    let black = begins_black(bits.row(row));
    let end = colour_end(bits, 0, row, black);
    let copies = copies_below(bits, end, row);
    Place {
        row,
        column: 0,
        copies,
        due: copies,
        end,
        black,
    }
}

/// The place in the same row where the other colour begins.
#[inline(always)]
pub fn next_colour(bits: &PackedBitmap, place: Place) -> Place
    requires narrow { bits.now.width ≤ MAX_GLYPH_SIDE }
    requires place { IsPlace bits.now place }
    requires low { place.row < bits.now.height }
    requires inside { place.end < bits.now.width }
    ensures place { IsPlace bits.now result }
    ensures row { result.row ≡ place.row }
    ensures column { result.column ≡ place.end }
    ensures copies { result.copies ≡ place.copies }
    ensures due { result.due ≡ place.due }
    ensures black { result.black ≡ not place.black }
{
    let black = !place.black;
    let end = colour_end(bits, place.end, place.row, black);
    Place {
        column: place.end,
        end,
        black,
        ..place
    }
}

// Where the pixels of a colour that begin in a column end.
#[inline(always)]
fn colour_end(bits: &PackedBitmap, column: u32, row: u32, black: bool) -> u32
    requires narrow { bits.now.width ≤ MAX_GLYPH_SIDE }
    requires low { row < bits.now.height }
    requires inside { column < bits.now.width }
    requires begins { slice_index_or (row_of (pixel_rows bits.now) row) column false ≡ black }
    ensures some { column < result }
    ensures most { result ≤ bits.now.width }
    ensures same { (x : ℕ) → column ≤ x → x < result →
        slice_index_or (row_of (pixel_rows bits.now) row) x false ≡ black }
    ensures other { result < bits.now.width →
        slice_index_or (row_of (pixel_rows bits.now) row) result false ≡ not black }
{
    run_end(bits.row(row), column as usize, bits.width() as usize, black) as u32
}
