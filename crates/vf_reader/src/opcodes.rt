//! The opcodes of a VF file (Knuth, VFtoVP, "Virtual fonts"). Those of short packets are their
//! lengths and lie below the others.

/// A packet whose length, code and width have four bytes each.
pub const LONG_PACKET: u8 = 242;
/// The last of the four definitions of a local font, whose number has one to four bytes.
pub const LAST_LOCAL: u8 = 246;
/// The preamble.
pub const PRE: u8 = 247;
/// The closing command.
pub const POST: u8 = 248;
/// The identifier of the format, the second byte of the preamble.
pub const IDENTIFIER: u8 = 202;
