//! Reading bytes from the beginning of a slice: a cursor that gives numbers of one to four bytes,
//! the most significant byte first, and stretches of bytes. Where fewer bytes are left than are
//! asked for, it stays where it is.
#![tactic(auto)]

mod cursor;

pub use cursor::{Cursor, Short};
