//! The four-bit halves of bytes.

ghost use Rattle.std.specs.Prelude.{◌≡◌, ◌<◌, ◌^◌, [], ◌∷◌, MatchOption, length};
ghost use Rattle.pk_runs.specs.Numbers.{nybbles_of};

use std::marker::Model;

/// The nybbles that are still to be read, seen as their list.
#[derive(Drop)]
pub struct Nybbles<'a> {
    bytes: &'a [u8],
    half: bool,
}

impl<'a> Model for Nybbles<'a> {
    ghost use Rattle.std.specs.Prelude.{ℕ, List, ◌<◌, length, if◌then◌else◌, drop, IsTrue};
    ghost use Rattle.pk_runs.specs.Numbers.{nybbles_of};

    ghost Value = { List ℕ };

    ghost view = { λ n. drop (if n.half then 1 else 0) (nybbles_of n.bytes.now) };

    ghost invariant = { λ n. IsTrue n.half → 0 < length n.bytes.now };
}

impl<'a> Nybbles<'a> {
    pub fn new(bytes: &'a [u8]) -> Nybbles<'a>
        ensures { result ≡ nybbles_of bytes.now }
    {
        Nybbles { bytes, half: false }
    }

    /// The same nybbles once more, for a function that is not inlined: a caller that lends it a
    /// copy keeps its own in registers.
    pub fn again(&self) -> Nybbles<'a>
        ensures { result ≡ self.now }
    {
        Nybbles {
            bytes: self.bytes,
            half: self.half,
        }
    }

    /// The next nybble, if there is one.
    #[inline(always)]
    pub fn next(&mut self) -> Option<u8>
        ensures cases { MatchOption result ((self.old ≡ []) × (self.new ≡ []))
            (λ i. (self.old ≡ i ∷ self.new) × (i < 16)) }
        ensures few { length self.old < 2 ^ 65 }
    {
        // Where half a byte was read there is a byte.
        if self.half {
            let byte = self.bytes[0];
            self.bytes = &self.bytes[1..];
            self.half = false;
            return Some(byte & 0x0f);
        }
        if self.bytes.is_empty() {
            return None;
        }
        self.half = true;
        Some(self.bytes[0] >> 4)
    }
}
