//! The commands of a DVI file: which bytes are which command, and reading one command at a place.
//!
//! Knuth, DVItype, "Device-independent file format". A command may have several spellings, since a
//! number may take more bytes than it needs; no spelling begins another, so bytes are read from the
//! left without a choice. Of the structure of a document this crate knows only in which context a
//! command is allowed.
#![tactic(auto)]

pub mod command;
mod fields;
pub mod laws;
mod reader;
mod skippable;
pub mod spelling_rows;
mod writer;

pub use crate::command::{Command, CommandFault, Context, FontDef};
pub use crate::reader::{command_at, read_command};
pub use crate::skippable::end_of_skippable;
pub use crate::writer::write_command;
