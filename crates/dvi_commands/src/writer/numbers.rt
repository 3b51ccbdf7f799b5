//! Opcodes, and numbers in the least number of bytes.

ghost use Rattle.std.specs.Prelude.{◌≡◌, ◌<◌, ◌≤◌, ◌++◌, ◌∷◌, [], pos, length, slice_index_or, OnErr, OnOk};
ghost use Rattle.big_endian.specs.Numbers.{IsSigned};
ghost use Rattle.dvi_commands.specs.ShortestSpelling.{motion_width as least_motion_width, number_width as least_number_width};
ghost use Rattle.dvi_commands.specs.Spelling.{IsMotion, IsOperand, quad, with_number};

use super::parts::append;
use std::alloc::AllocError as NoMemory;

/// The four bytes of a signed number.
pub(super) fn quad_bytes(number: i32) -> [u8; 4]
    ensures bytes { result ≡ quad number }
    ensures fits { IsSigned 4 number }
{
    number.to_be_bytes()
}

/// The four bytes of one of many signed numbers.
pub(super) fn quad_at(numbers: &[i32], place: usize) -> [u8; 4]
    requires { place < length numbers.now }
    ensures bytes { result ≡ quad (slice_index_or numbers.now place (pos 0)) }
    ensures fits { IsSigned 4 (slice_index_or numbers.now place (pos 0)) }
{
    quad_bytes(numbers[place])
}

// The least number of bytes, from 1 to 4, that holds the number of a motion signed.
fn motion_width(by: i32) -> usize
    ensures least { result ≡ least_motion_width by }
    ensures fits { IsMotion result by }
{
    match by {
        -0x80..=0x7f => 1,
        -0x8000..=0x7fff => 2,
        -0x80_0000..=0x7f_ffff => 3,
        _ => 4,
    }
}

/// The least number of bytes that holds the number of a character, a font or a special: from 1 to 3
/// unsigned, or 4.
pub(super) fn number_width(number: i32) -> usize
    ensures least { result ≡ least_number_width number }
    ensures fits { IsOperand result number }
{
    match number {
        0..=0xff => 1,
        0x100..=0xffff => 2,
        0x1_0000..=0xff_ffff => 3,
        _ => 4,
    }
}

/// Appends an opcode.
pub(super) fn append_opcode(out: &mut Vec<u8>, opcode: u8) -> Result<(), NoMemory>
    ensures appended { OnOk result (out.new.items ≡ out.old.items ++ opcode ∷ []) }
    ensures unchanged { OnErr result (out.new.items ≡ out.old.items) }
{
    append(out, &[&[opcode]])
}

/// Appends a motion: its opcode, which is a base plus the number of bytes that follow, and the
/// number.
pub(super) fn append_motion(out: &mut Vec<u8>, before: u8, by: i32) -> Result<(), NoMemory>
    requires { before ≤ 251 }
    ensures appended { OnOk result (out.new.items ≡ out.old.items ++ with_number before
        (least_motion_width by) by) }
    ensures unchanged { OnErr result (out.new.items ≡ out.old.items) }
    ensures fits { IsMotion (least_motion_width by) by }
{
    let width = motion_width(by);
    append(
        out,
        &[&[before + width as u8], &quad_bytes(by)[4 - width..]],
    )
}

/// Appends the command of a character or a font: its opcode, which is a base plus the number of
/// bytes that follow, and the number.
pub(super) fn append_number(out: &mut Vec<u8>, before: u8, number: i32) -> Result<(), NoMemory>
    requires { before ≤ 251 }
    ensures appended { OnOk result (out.new.items ≡ out.old.items ++ with_number before
        (least_number_width number) number) }
    ensures unchanged { OnErr result (out.new.items ≡ out.old.items) }
    ensures fits { IsOperand (least_number_width number) number }
{
    let width = number_width(number);
    append(
        out,
        &[&[before + width as u8], &quad_bytes(number)[4 - width..]],
    )
}
