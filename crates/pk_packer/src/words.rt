//! The pixels of a row, sixty-four at a time.

ghost use Rattle.std.specs.Prelude.{◌≡◌, ℕ, ◌+◌, ◌*◌, ◌<◌, ◌≤◌, length, slice_index};
ghost use Rattle.packed_rows.specs.Packing.{pixel};
ghost use Rattle.packed_rows.specs.Stamped.{word_pixel};

/// The sixty-four pixels from byte `at` on.
pub fn word_at(row: &[u8], at: usize) -> u64
    requires { at + 8 ≤ length row.now }
    ensures { (i : ℕ) → i < 64 → word_pixel result i ≡ pixel row.now (8 * at + i) }
{
    u64::from_be_bytes([
        row[at],
        row[at + 1],
        row[at + 2],
        row[at + 3],
        row[at + 4],
        row[at + 5],
        row[at + 6],
        row[at + 7],
    ])
}

/// The pixels of a row of less than eight bytes, and white ones after them.
pub fn short_word(row: &[u8]) -> u64
    ensures { (i : ℕ) → i < 64 → word_pixel result i ≡ pixel row.now i }
{
    u64::from_be_bytes([
        byte_or_white(row, 0),
        byte_or_white(row, 1),
        byte_or_white(row, 2),
        byte_or_white(row, 3),
        byte_or_white(row, 4),
        byte_or_white(row, 5),
        byte_or_white(row, 6),
        byte_or_white(row, 7),
    ])
}

// A byte of the row, or white pixels behind its end.
fn byte_or_white(row: &[u8], at: usize) -> u8
    ensures { result ≡ slice_index row.now at }
{
    if at < row.len() { row[at] } else { 0 }
}
