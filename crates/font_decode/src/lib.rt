//! Fonts from their files. A font's key, that is its name and its sizes, says which files it may
//! have: a TFM file with its widths, and a VF file with packets of DVI commands or else a PK or GF
//! file with its glyphs. `fetch` loads those that are there from a source of files, and `decode`
//! makes the font of them, or answers what is wrong with it first. A `Desk` is where a page asks
//! for its fonts, however they are kept.
#![tactic(auto)]

mod decoding;
mod desk;
mod faults;
mod files;
mod font_load;
mod font_or_fault;
mod fonts;
pub mod laws;
mod loading;
mod local_keys;
mod locals;
mod names;
mod shapes;
mod widths;

pub use decoding::decode;
pub use desk::{Desk, DeskStop};
pub use faults::{FileKind, FontFault};
pub use files::Files;
pub use font_load::load;
pub use font_or_fault::Decoded;
pub use fonts::Font;
pub use loading::fetch;
pub use names::{dpi, file_name, is_valid_name};
