//! The opcodes of a PK file (Rokicki, PKtype, "Packed file format"). The flags of character packets
//! lie below them.

/// The first of the four specials, whose length has one to four bytes.
pub const SPECIAL: u8 = 240;
/// The last special.
pub const LAST_SPECIAL: u8 = 243;
/// A number of four bytes.
pub const NUMBER: u8 = 244;
/// The closing command.
pub const POST: u8 = 245;
/// Does nothing; the last opcode that is allowed after the preamble.
pub const NO_OP: u8 = 246;
/// The preamble.
pub const PRE: u8 = 247;
/// The identifier of the format, the second byte of the preamble.
pub const IDENTIFIER: u8 = 89;
