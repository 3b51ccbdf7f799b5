//! Words that hold a row while it is painted: its pixels up to a column, and after them the colour
//! of the run that is due, so that a run only turns what lies after it.

ghost use Rattle.std.specs.Prelude.{◌≡◌, ℕ, ◌<◌, ◌≤◌, ◌&&◌, not, nat_le, nat_lt, if◌then◌else◌};
ghost use Rattle.packed_rows.specs.Stamped.{word_pixel};

/// A word of one colour.
#[inline(always)]
pub fn word_of(black: bool) -> u64
    ensures { (i : ℕ) → i < 64 → word_pixel result i ≡ black }
{
    if black { u64::MAX } else { 0 }
}

/// The colour of the last pixel, which lies after every column.
#[inline(always)]
pub fn last(word: u64) -> bool
    ensures { result ≡ word_pixel word 63 }
{
    word & 1 == 1
}

/// The word with the other colour from a column on.
#[inline(always)]
pub fn turned_from(word: u64, column: u32) -> u64
    requires { column < 64 }
    ensures { (i : ℕ) → i < 64 →
        word_pixel result i ≡ (if nat_le column i then not (word_pixel word i)
        else word_pixel word i) }
{
    word ^ (u64::MAX >> column)
}

/// The pixels of the word before a column, the others white.
#[inline(always)]
pub fn prefix(word: u64, column: u32) -> u64
    requires { column < 64 }
    ensures { (i : ℕ) → i < 64 → word_pixel result i ≡ (nat_lt i column && word_pixel word i) }
{
    word & !(u64::MAX >> column)
}
