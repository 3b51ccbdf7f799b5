//! From DVI units to dots of the page, by the exact fraction that a document's preamble and the
//! resolution give.
//!
//! A DVI file measures in units of `num / den` times 10^-7 meters, enlarged by `mag / 1000`, and a
//! page has `res` dots to the inch. So one unit is `num * res * mag / (254000000 * den)` dots.
//! `Conv` keeps this fraction in lowest terms, without any rounding, and converts a length to the
//! nearest whole number of dots (glyphs and motions) or to the least that covers it (rules), as
//! Knuth's DVItype does.
#![tactic(auto)]

pub mod conv;
pub mod examples;
pub mod laws;
mod quotients;
pub mod units;

pub use conv::{Conv, Scale};
pub use units::Units;
