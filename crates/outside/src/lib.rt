//! The driver's outside: where bytes come from and where they go, where font files come from, and
//! the names of fonts and files. Proofs may know the content of a value of each trait, and each has
//! a count of faults that never falls. Of the forms in memory, which tests use in place of the real
//! ones, the content is known.
#![tactic(auto)]

mod asked_names;
mod fonts;
mod gather;
mod keys;
pub mod laws;
mod library;
mod mem_fonts;
mod memory;
mod names;
mod picky_fonts;
mod streams;
mod sure;

pub use fonts::{FontSource, LoadStop};
pub use gather::{Gather, PIECE};
pub use keys::FontKey;
pub use library::Library;
pub use mem_fonts::{MemFonts, SureFonts};
pub use memory::{MemInput, MemOutput};
pub use names::{FileName, FontName};
pub use picky_fonts::PickyFonts;
pub use streams::{Failed, Input, Output, write_all};
pub use sure::{SureInput, SureOutput};
