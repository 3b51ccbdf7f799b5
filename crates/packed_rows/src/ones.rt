//! How many bits are set in bytes.

ghost use Rattle.std.specs.Prelude.{◌≡◌, ◌%◌, ◌^◌, ◌≤◌, length, count_ones};
ghost use Rattle.std.specs.List.{sum_by};

use crate::words::word_at;

/// How many bits are set in whole words of bytes.
pub fn count_ones(bytes: &[u8]) -> u64
    requires few { length bytes.now ≤ 2 ^ 29 }
    requires whole { length bytes.now % 8 ≡ 0 }
    ensures { result ≡ sum_by count_ones bytes.now }
{
    let mut count = 0;
    for i in 0..bytes.len() / 8 {
        count += u64::from(word_at(bytes, 8 * i).count_ones());
    }
    count
}
