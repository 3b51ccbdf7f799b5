//! Sets glyphs on a page of dots.
#![tactic(auto)]

mod glyph;
mod laws;

pub use glyph::paint;
pub use laws::glyphs;
