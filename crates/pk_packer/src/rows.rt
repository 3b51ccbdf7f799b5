//! Groups of neighbouring equal rows.

ghost use Rattle.std.specs.Prelude.{◌≡◌, ◌+◌, ◌<◌, ◌≤◌, ◌↔◌, ℕ, IsTrue, nat_lt};
ghost use Rattle.pk_packer.specs.Places.{AreCopies, row_of};
ghost use Rattle.pk_packer.specs.Written.{has_both_colours, pixel_rows};

use packed_rows::PackedBitmap;

/// How many rows below a row are copies of it that are not written: none where the colour with
/// which it begins ends, at a column, only at the row's end.
pub fn copies_below(bits: &PackedBitmap, column: u32, row: u32) -> u32
    requires inside { row < bits.now.height }
    requires colours { nat_lt column bits.now.width
        ≡ has_both_colours (row_of (pixel_rows bits.now) row) }
    ensures fit { row + 1 + result ≤ bits.now.height }
    ensures copies { AreCopies (pixel_rows bits.now) row result }
{
    if column >= bits.width() {
        return 0;
    }
    equal_below(bits, column, row)
}

/// How many rows below a row equal it, up to the first that doesn't. Two rows are compared first at
/// a column where they are likely to differ, and the first two without a call.
#[inline(always)]
pub fn equal_below(bits: &PackedBitmap, column: u32, row: u32) -> u32
    requires inside { row < bits.now.height }
    requires in_row { column < bits.now.width }
    ensures fit { row + 1 + result ≤ bits.now.height }
    ensures same { (k : ℕ) → k < result → row_of (pixel_rows bits.now) (row + 1 + k)
        ≡ row_of (pixel_rows bits.now) row }
    ensures other { row + 1 + result < bits.now.height → row_of (pixel_rows bits.now) row
        ≡ row_of (pixel_rows bits.now) (row + 1 + result) → ⊥ }
{
    let height = bits.height();
    if row + 1 < height && agree_at(bits, column, row, row + 1) {
        return count_equal(bits, column, row);
    }
    0
}

// How many rows below a row equal it, up to the first that doesn't. There is a next row, which has
// been looked at in a column already.
#[inline(never)]
fn count_equal(bits: &PackedBitmap, column: u32, row: u32) -> u32
    requires inside { row + 1 < bits.now.height }
    requires in_row { column < bits.now.width }
    ensures fit { row + 1 + result ≤ bits.now.height }
    ensures same { (k : ℕ) → k < result → row_of (pixel_rows bits.now) (row + 1 + k)
        ≡ row_of (pixel_rows bits.now) row }
    ensures other { row + 1 + result < bits.now.height → row_of (pixel_rows bits.now) row
        ≡ row_of (pixel_rows bits.now) (row + 1 + result) → ⊥ }
{
    let height = bits.height();
    let mut n = u32::from(are_same(bits, row, row + 1));
    while n > 0 && row + 1 + n < height && are_equal(bits, column, row, row + 1 + n) {
        n += 1;
    }
    n
}

// Whether two rows have the same pixels. They often differ at a column that is known before.
fn are_equal(bits: &PackedBitmap, x: u32, y: u32, z: u32) -> bool
    requires in_row { x < bits.now.width }
    requires upper { y < bits.now.height }
    requires lower { z < bits.now.height }
    ensures { IsTrue result ↔ (row_of (pixel_rows bits.now) y ≡ row_of (pixel_rows bits.now) z) }
{
    agree_at(bits, x, y, z) && are_same(bits, y, z)
}

// Whether two rows have the same pixels.
fn are_same(bits: &PackedBitmap, y: u32, z: u32) -> bool
    requires upper { y < bits.now.height }
    requires lower { z < bits.now.height }
    ensures { IsTrue result ↔ (row_of (pixel_rows bits.now) y ≡ row_of (pixel_rows bits.now) z) }
{
    bits.row(y) == bits.row(z)
}

// Whether two rows have the same bytes at a column and before it: a quick test, which most rows
// fail. Where a colour begins at the column, a row of one colour fails it.
#[inline(always)]
fn agree_at(bits: &PackedBitmap, x: u32, y: u32, z: u32) -> bool
    requires in_row { x < bits.now.width }
    requires upper { y < bits.now.height }
    requires lower { z < bits.now.height }
    ensures { row_of (pixel_rows bits.now) y ≡ row_of (pixel_rows bits.now) z → IsTrue result }
{
    have_same_byte(bits, x, y, z) && have_same_byte(bits, x.saturating_sub(1), y, z)
}

// Whether two rows have the same byte at a column.
#[inline(always)]
fn have_same_byte(bits: &PackedBitmap, x: u32, y: u32, z: u32) -> bool
    requires in_row { x < bits.now.width }
    requires upper { y < bits.now.height }
    requires lower { z < bits.now.height }
    ensures { row_of (pixel_rows bits.now) y ≡ row_of (pixel_rows bits.now) z → IsTrue result }
{
    let (upper, lower) = (bits.row(y), bits.row(z));
    let at = x as usize / 8;
    upper[at] == lower[at]
}
