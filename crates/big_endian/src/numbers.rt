//! Reading a number from all the bytes of a slice.

ghost use Rattle.std.specs.Prelude.{◌≡◌, ◌<◌, ◌≤◌, ◌^◌, length, pos};
ghost use Rattle.big_endian.specs.Numbers.{number_bytes, signed_of, unsigned_of, IsSigned};

use byteorder::{BigEndian, ByteOrder};

/// The number that all of the one to four bytes spell, read unsigned: 0 to 2^32 - 1.
#[inline]
pub fn unsigned(bytes: &[u8]) -> u32
    requires some { 1 ≤ length bytes.now }
    requires few { length bytes.now ≤ 4 }
    ensures number { result ≡ unsigned_of bytes.now }
    ensures fits { result < 256 ^ length bytes.now }
    ensures written { number_bytes (length bytes.now) (pos result) ≡ bytes.now }
{
    match bytes.len() {
        1 => u32::from(bytes[0]),
        2 => u32::from(BigEndian::read_u16(bytes)),
        3 => BigEndian::read_u24(bytes),
        _ => BigEndian::read_u32(bytes),
    }
}

/// The number that all of the one to four bytes spell in two's complement: -2^31 to 2^31 - 1.
#[inline]
pub fn signed(bytes: &[u8]) -> i32
    requires some { 1 ≤ length bytes.now }
    requires few { length bytes.now ≤ 4 }
    ensures number { result ≡ signed_of bytes.now }
    ensures fits { IsSigned (length bytes.now) result }
    ensures written { number_bytes (length bytes.now) result ≡ bytes.now }
{
    match bytes.len() {
        1 => i32::from(bytes[0].cast_signed()),
        2 => i32::from(BigEndian::read_i16(bytes)),
        3 => BigEndian::read_i24(bytes),
        _ => BigEndian::read_i32(bytes),
    }
}
