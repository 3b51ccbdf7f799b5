//! The opcodes of a GF file (Knuth, GFtype, "Generic font file format"). Below 64 an opcode is the
//! length of the run that it paints.

/// The first of the three paints with a length of its own, of one to three bytes.
pub const PAINT: u8 = 64;
/// The last of them.
pub const LAST_PAINT: u8 = 66;
/// The beginning of a character, with fields of four bytes.
pub const BOC: u8 = 67;
/// The beginning of a character, with fields of one byte.
pub const BOC1: u8 = 68;
/// The end of a character.
pub const EOC: u8 = 69;
/// One row down, to the beginning of the row.
pub const SKIP: u8 = 70;
/// The last of the three skips of more rows.
pub const LAST_SKIP: u8 = 73;
/// A new row that begins with black.
pub const NEW_ROW: u8 = 74;
/// The last of them.
pub const LAST_NEW_ROW: u8 = 238;
/// The first of the four specials, whose length has one to four bytes.
pub const SPECIAL: u8 = 239;
/// The last special.
pub const LAST_SPECIAL: u8 = 242;
/// A number of four bytes.
pub const NUMBER: u8 = 243;
/// Nothing.
pub const NO_OP: u8 = 244;
/// The preamble.
pub const PRE: u8 = 247;
/// The closing command.
pub const POST: u8 = 248;
/// The identifier of the format, the second byte of the preamble.
pub const IDENTIFIER: u8 = 131;
