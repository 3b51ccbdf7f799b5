//! Pixels of one colour, passed many words at a time.

ghost use Rattle.std.specs.Prelude.{◌≡◌, ℕ, ◌+◌, ◌*◌, ◌^◌, ◌<◌, ◌≤◌, length};
ghost use Rattle.packed_rows.specs.Packing.{pixel};

use crate::words::word_at;

/// As far as blocks of 128 bytes have a colour, and then 64 more bytes, if they have it: where it
/// ends in a block, it ends in the 64 bytes that follow.
#[inline(always)]
pub fn pass_blocks(row: &[u8], from: usize, black: bool) -> usize
    requires short { length row.now < 2 ^ 16 }
    requires inside { from ≤ length row.now }
    ensures least { from ≤ result }
    ensures most { result ≤ length row.now }
    ensures same { (x : ℕ) → 8 * from ≤ x → x < 8 * result → pixel row.now x ≡ black }
{
    let wide = pass_256(row, from, black);
    pass_64(row, wide, black)
}

/// The byte up to which a row's last bytes have a colour: the row's end, or a byte of the word in
/// which that colour ends. Most often they have it all, and are passed by the row's last 64 bytes.
#[inline(always)]
pub fn pass_rest(row: &[u8], from: usize, black: bool, at: usize) -> usize
    requires short { length row.now < 2 ^ 16 }
    requires inside { at ≤ length row.now }
    requires ordered { from ≤ at }
    requires behind { length row.now < at + 64 }
    requires passed { (x : ℕ) → 8 * from ≤ x → x < 8 * at → pixel row.now x ≡ black }
    ensures least { from ≤ result }
    ensures most { result ≤ length row.now }
    ensures same { (x : ℕ) → 8 * from ≤ x → x < 8 * result → pixel row.now x ≡ black }
{
    if at == row.len() || from + 64 <= row.len() && others_64(row, row.len() - 64, black) == 0 {
        return row.len();
    }
    pass_8(row, at, black)
}

// As far as blocks of 128 bytes have the colour, two in one turn.
#[inline(always)]
fn pass_256(row: &[u8], from: usize, black: bool) -> usize
    requires short { length row.now < 2 ^ 16 }
    requires inside { from ≤ length row.now }
    ensures least { from ≤ result }
    ensures most { result ≤ length row.now }
    ensures same { (x : ℕ) → 8 * from ≤ x → x < 8 * result → pixel row.now x ≡ black }
{
    if row.len() < 256 {
        return pass_128(row, from, black);
    }
    let last = row.len() - 256;
    let mut at = from;
    while at <= last {
        if others_128(row, at, black) != 0 {
            return at;
        }
        if others_128(row, at + 128, black) != 0 {
            return at + 128;
        }
        at += 256;
    }
    pass_128(row, at, black)
}

// Past 128 bytes, if they have the colour.
#[inline(always)]
fn pass_128(row: &[u8], from: usize, black: bool) -> usize
    requires short { length row.now < 2 ^ 16 }
    requires inside { from ≤ length row.now }
    ensures least { from ≤ result }
    ensures most { result ≤ length row.now }
    ensures same { (x : ℕ) → 8 * from ≤ x → x < 8 * result → pixel row.now x ≡ black }
{
    if from + 128 <= row.len() && others_128(row, from, black) == 0 {
        return from + 128;
    }
    from
}

// Past 64 bytes, if they have the colour.
#[inline(always)]
fn pass_64(row: &[u8], from: usize, black: bool) -> usize
    requires short { length row.now < 2 ^ 16 }
    requires inside { from ≤ length row.now }
    ensures least { from ≤ result }
    ensures most { result ≤ length row.now }
    ensures same { (x : ℕ) → 8 * from ≤ x → x < 8 * result → pixel row.now x ≡ black }
{
    if from + 64 <= row.len() && others_64(row, from, black) == 0 {
        return from + 64;
    }
    from
}

/// As far as the first seven words of 64 bytes have a colour.
#[inline(always)]
pub fn pass_words(row: &[u8], from: usize, black: bool) -> usize
    requires short { length row.now < 2 ^ 16 }
    requires inside { from + 64 ≤ length row.now }
    ensures least { from ≤ result }
    ensures word { result + 8 ≤ length row.now }
    ensures same { (x : ℕ) → 8 * from ≤ x → x < 8 * result → pixel row.now x ≡ black }
{
    for i in 0..7 {
        if others_8(row, from + 8 * i, black) != 0 {
            return from + 8 * i;
        }
    }
    from + 56
}

// As far as words have the colour.
#[inline(always)]
fn pass_8(row: &[u8], from: usize, black: bool) -> usize
    requires short { length row.now < 2 ^ 16 }
    requires inside { from ≤ length row.now }
    ensures least { from ≤ result }
    ensures most { result ≤ length row.now }
    ensures same { (x : ℕ) → 8 * from ≤ x → x < 8 * result → pixel row.now x ≡ black }
{
    let mut at = from;
    while at + 8 <= row.len() && others_8(row, at, black) == 0 {
        at += 8;
    }
    at
}

// The pixels of the other colour in each word of 128 bytes, joined.
#[inline(always)]
fn others_128(row: &[u8], at: usize, black: bool) -> u64
    requires short { length row.now < 2 ^ 16 }
    requires inside { at + 128 ≤ length row.now }
    ensures { result ≡ 0 → (x : ℕ) → 8 * at ≤ x → x < 8 * at + 1024 → pixel row.now x ≡ black }
{
    others_64(row, at, black) | others_64(row, at + 64, black)
}

// The pixels of the other colour in each word of 64 bytes, joined.
#[inline(always)]
fn others_64(row: &[u8], at: usize, black: bool) -> u64
    requires short { length row.now < 2 ^ 16 }
    requires inside { at + 64 ≤ length row.now }
    ensures { result ≡ 0 → (x : ℕ) → 8 * at ≤ x → x < 8 * at + 512 → pixel row.now x ≡ black }
{
    others_8(row, at, black)
        | others_8(row, at + 8, black)
        | others_8(row, at + 16, black)
        | others_8(row, at + 24, black)
        | others_8(row, at + 32, black)
        | others_8(row, at + 40, black)
        | others_8(row, at + 48, black)
        | others_8(row, at + 56, black)
}

// The pixels of the other colour in the word that begins at a byte.
#[inline(always)]
fn others_8(row: &[u8], at: usize, black: bool) -> u64
    requires { at + 8 ≤ length row.now }
    ensures { result ≡ 0 → (x : ℕ) → 8 * at ≤ x → x < 8 * at + 64 → pixel row.now x ≡ black }
{
    let word = word_at(row, at);
    if black {
        return !word;
    }
    word
}
