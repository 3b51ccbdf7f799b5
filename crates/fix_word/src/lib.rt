//! Dimensions of fonts in DVI units, exactly. A TFM file gives each width as a fix_word, in units
//! of 2^-20 of the font's size; `scale` gives it in DVI units, rounded down, as Knuth's DVItype
//! does. `tex_units` gives a design size in points, a fix_word too, in DVI units.
#![tactic(auto)]

pub mod laws;
mod sizes;

pub use sizes::{scale, tex_units};
