//! Generic fonts: the glyphs of a GF file (Knuth, GFtype, "Generic font file format"). Every
//! character is judged at reading, also one that no page uses or that a later one replaces; the
//! first fault of the file is answered. A glyph is found by its code's place in a table.
#![tactic(auto)]

mod drawing;
pub mod examples;
mod faults;
mod fields;
mod font;
mod head;
mod items;
pub mod laws;
mod opcodes;
mod preamble;
mod read;
mod rows;

pub use faults::{GfFault, GfStop};
pub use font::GfFont;
