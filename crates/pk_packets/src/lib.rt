//! Packed fonts: the glyphs of a PK file (Rokicki, PKtype, "Packed file format"). Every packet is
//! judged when the file is read, even one that no page uses or that a later one replaces; the first
//! fault of the file is answered. A glyph is found by its code's place in a table.
#![tactic(auto)]

pub mod examples;
mod faults;
mod font;
mod form;
mod glyph;
mod items;
pub mod laws;
mod opcodes;
mod packet;
mod preamble;
mod read;

pub use faults::{PkFault, PkStop};
pub use font::PkFont;
