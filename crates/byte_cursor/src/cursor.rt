//! The cursor.
ghost use Rattle.std.specs.Prelude.{◌≡◌, ◌≤◌, ◌<◌, ◌^◌, ◌∷◌, [], ◌↔◌, length, IfOk, IsErr, OnErr, OnOk};
ghost use Rattle.big_endian.specs.Numbers.{signed_of, unsigned_of};
ghost use Rattle.byte_cursor.specs.Cursor.{cursor_after, bytes_left, next_bytes};

use std::marker::Model;

/// Fewer bytes are left than were asked for.
#[derive(Clone, Copy, Debug, PartialEq, Eq, thiserror::Error)]
#[error("too few bytes are left")]
pub struct Short;

/// A place in a slice of bytes. A contract sees it as the bytes and the number of those read.
#[derive(Debug, Drop)]
pub struct Cursor<'a> {
    bytes: &'a [u8],
    at: usize,
}

impl<'a> Model for Cursor<'a> {
    ghost use Rattle.std.specs.Prelude.{◌≤◌, length};
    ghost use Rattle.byte_cursor.specs.Cursor.{CursorValue};

    ghost Value = { CursorValue };

    ghost view = { λ c. record { bytes = c.bytes.now; at = c.at } };

    ghost invariant = { λ c. c.at ≤ length c.bytes.now };
}

impl<'a> Cursor<'a> {
    /// A cursor at the first byte.
    pub fn new(bytes: &'a [u8]) -> Cursor<'a>
        ensures { result ≡ record { bytes = bytes.now; at = 0 } }
    {
        Cursor { bytes, at: 0 }
    }

    /// How many bytes were read.
    pub fn at(&self) -> usize
        ensures at { result ≡ self.now.at }
        ensures inside { result ≤ length self.now.bytes }
    {
        self.at
    }

    /// How many bytes are left.
    pub fn left(&self) -> usize
        ensures left { result ≡ bytes_left self.now }
    {
        self.bytes.len() - self.at
    }

    /// The next `n` bytes. `Short` exactly where fewer are left; the cursor then stays where it is.
    pub fn take(&mut self, n: usize) -> Result<&'a [u8], Short>
        ensures short { IsErr result ↔ (bytes_left self.old < n) }
        ensures bytes { IfOk result (λ bytes. bytes.now ≡ next_bytes self.old n) }
        ensures moved { OnOk result (self.new ≡ cursor_after self.old n) }
        ensures stays { OnErr result (self.new ≡ self.old) }
    {
        if self.left() < n {
            return Err(Short);
        }
        let bytes = self.bytes;
        let start = self.at;
        self.at += n;
        Ok(&bytes[start..self.at])
    }

    /// The next byte.
    pub fn byte(&mut self) -> Result<u8, Short>
        ensures short { IsErr result ↔ (bytes_left self.old ≡ 0) }
        ensures byte { IfOk result (λ byte. next_bytes self.old 1 ≡ byte ∷ []) }
        ensures moved { OnOk result (self.new ≡ cursor_after self.old 1) }
        ensures stays { OnErr result (self.new ≡ self.old) }
    {
        let bytes = self.take(1)?;
        Ok(bytes[0])
    }

    /// The number that the next `n` bytes spell, read unsigned.
    pub fn unsigned(&mut self, n: usize) -> Result<u32, Short>
        requires some { 1 ≤ n }
        requires few { n ≤ 4 }
        ensures short { IsErr result ↔ (bytes_left self.old < n) }
        ensures number { IfOk result (λ number. number ≡ unsigned_of (next_bytes self.old n)) }
        ensures fits { IfOk result (λ number. number < 256 ^ n) }
        ensures moved { OnOk result (self.new ≡ cursor_after self.old n) }
        ensures stays { OnErr result (self.new ≡ self.old) }
    {
        let bytes = self.take(n)?;
        Ok(big_endian::unsigned(bytes))
    }

    /// The number that the next `n` bytes spell in two's complement.
    pub fn signed(&mut self, n: usize) -> Result<i32, Short>
        requires some { 1 ≤ n }
        requires few { n ≤ 4 }
        ensures short { IsErr result ↔ (bytes_left self.old < n) }
        ensures number { IfOk result (λ number. number ≡ signed_of (next_bytes self.old n)) }
        ensures moved { OnOk result (self.new ≡ cursor_after self.old n) }
        ensures stays { OnErr result (self.new ≡ self.old) }
    {
        let bytes = self.take(n)?;
        Ok(big_endian::signed(bytes))
    }
}
