//! The registers of a page, and the marks that its commands make.
//!
//! A page's commands move two places at once: (h, v) in DVI units, which is exact, and (hh, vv) in
//! dots. The place in dots grows by rounded motions, so that equal words look equal, but it is
//! never farther than two dots from where the exact place would be rounded to, and after a wide
//! space it is rounded anew. `Pen` is that machine: it takes one flat command at a time (a page's
//! commands with every virtual character expanded) and answers with the mark that the command
//! makes. A push saves both places, and its pop gives both back as they were: the place in dots
//! isn't rounded anew there. The packet of a virtual character is saved and given back in the same
//! way, and w, x, y and z are 0 where it begins.
//!
//! The rules are those of Knuth's DVItype, "Translation to symbolic form".
#![tactic(auto)]

pub mod examples;
pub mod faults;
pub mod flat;
pub mod laws;
mod marks;
mod motions;
pub mod pen;
mod saved;

pub use faults::{PenFault, PenStop};
pub use flat::{Flat, Mark, Registers};
pub use pen::Pen;
