//! Words: eight bytes as one number, the first byte the highest.

ghost use Rattle.std.specs.Prelude.{◌≡◌, ℕ, ◌+◌, ◌-◌, ◌*◌, ◌%◌, ◌<◌, ◌≤◌, ◌&&◌, ◌||◌, length};
ghost use Rattle.packed_rows.specs.Packing.{pixel};
ghost use Rattle.packed_rows.specs.Changes.{is_within};
ghost use Rattle.packed_rows.specs.Stamped.{word_pixel};

/// The sixty-four pixels from byte `at` on.
pub fn word_at(bytes: &[u8], at: usize) -> u64
    requires { at + 8 ≤ length bytes.now }
    ensures { (i : ℕ) → i < 64 → word_pixel result i ≡ pixel bytes.now (8 * at + i) }
{
    u64::from_be_bytes([
        bytes[at],
        bytes[at + 1],
        bytes[at + 2],
        bytes[at + 3],
        bytes[at + 4],
        bytes[at + 5],
        bytes[at + 6],
        bytes[at + 7],
    ])
}

/// The word whose pixels from `from` up to but not including `until` are black.
pub fn span_word(from: usize, until: usize) -> u64
    requires from { from < 64 }
    requires some { 0 < until }
    requires until { until ≤ 64 }
    ensures { (i : ℕ) → i < 64 → word_pixel result i ≡ is_within from until i }
{
    (u64::MAX >> from) & (u64::MAX << (64 - until))
}

/// The word turned to the right: what leaves it at the right comes in again at the left.
pub fn rotated_right(word: u64, by: usize) -> u64
    requires { by < 64 }
    ensures { (i : ℕ) → i < 64 → word_pixel result i ≡ word_pixel word ((i + (64 - by)) % 64) }
{
    word.rotate_right(by as u32)
}

/// Makes the pixels black that lie under a black one of the word, which lies over the eight bytes
/// from byte `at` on.
// Eight single writes become one store; `copy_from_slice` doesn't.
pub fn join_word(row: &mut [u8], at: usize, word: u64)
    requires { at + 8 ≤ length row.old }
    ensures len { length row.new ≡ length row.old }
    ensures pixels { (x : ℕ) → x < 8 * length row.old →
        pixel row.new x
        ≡ (is_within (8 * at) (8 * at + 64) x && word_pixel word (x - 8 * at) || pixel row.old x) }
{
    let joined = (word_at(row, at) | word).to_be_bytes();
    row[at] = joined[0];
    row[at + 1] = joined[1];
    row[at + 2] = joined[2];
    row[at + 3] = joined[3];
    row[at + 4] = joined[4];
    row[at + 5] = joined[5];
    row[at + 6] = joined[6];
    row[at + 7] = joined[7];
}
