//! Laws of fonts whose PK files hold the same glyphs in other bytes: they are decoded alike, pages
//! drawn with them are the same, and so the packed sample's pages are those of the plain one.
#![tactic(auto)]

mod laws;

pub use laws::{repacked, samples};
