//! One row.

ghost use Rattle.std.specs.Prelude.{◌≡◌, ℕ, ◌*◌, ◌<◌, ◌≤◌, ◌&&◌, ◌||◌, length, nat_le, nat_lt, slice_index, slice_set, bit_or};
ghost use Rattle.std.specs.Int.{div_ceil};
ghost use Rattle.packed_rows.specs.Packing.{pixel, IsPadded};

/// How many bytes a row of `width` pixels takes.
pub fn row_bytes(width: u32) -> usize
    ensures { result ≡ div_ceil width 8 }
{
    (width as usize + 7) / 8
}

/// How many bytes a row of `width` pixels takes in whole words of eight.
pub fn padded_bytes(width: u32) -> usize
    ensures { result ≡ 8 * div_ceil width 64 }
{
    8 * ((width as usize + 63) / 64)
}

/// Whether pixel `x` of the row is black.
pub fn is_black(row: &[u8], x: usize) -> bool
    requires { x < 8 * length row.now }
    ensures { result ≡ pixel row.now x }
{
    (row[x / 8] >> (7 - x % 8)) & 1 == 1
}

/// Makes the pixels from `from` up to but not including `until` black, and leaves the others as
/// they are.
pub fn blacken(row: &mut [u8], from: usize, until: usize)
    requires ordered { from ≤ until }
    requires inside { until ≤ 8 * length row.old }
    ensures len { length row.new ≡ length row.old }
    ensures pixels { (x : ℕ) → x < 8 * length row.old →
        pixel row.new x ≡ (nat_le from x && nat_lt x until || pixel row.old x) }
    // What lies after a row's last pixel stays zero.
    ensures padded { (width : ℕ) → until ≤ width → IsPadded width row.old → IsPadded width row.new }
{
    if from == until {
        return;
    }
    let first = from / 8;
    let last = (until - 1) / 8;
    let head = 0xff >> (from % 8);
    let tail = 0xff << (7 - (until - 1) % 8);
    if first == last {
        set_bits(row, first, head & tail);
    } else {
        set_bits(row, first, head);
        row[first + 1..last].fill(0xff);
        set_bits(row, last, tail);
    }
}

// Sets the bits of a mask in one byte.
fn set_bits(row: &mut [u8], at: usize, mask: u8)
    requires { at < length row.old }
    ensures { row.new ≡ slice_set row.old at (bit_or (slice_index row.old at) mask) }
{
    row[at] |= mask;
}
