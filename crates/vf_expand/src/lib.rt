//! A page as flat commands: `Expander` takes the commands of a page, and of the packets of its
//! virtual characters, one after another and gives each as a command of the pen. It asks for a font
//! where the first character of it comes, and ends at the page's end or at its first fault. In a
//! tolerant run a missing font, character, glyph or packet is no fault: it is given as a lack, and
//! its character moves alone. Nested packets are a list of at most ten levels; a packet's bytes are
//! read where they are in the font's file.
#![tactic(auto)]

mod character;
mod current;
mod current_level;
mod effect;
mod entry;
mod expander;
mod faults;
mod keys;
mod lack;
pub mod laws;
mod outer_levels;
mod pending;
mod progress;
mod sets;
mod step;

pub use expander::Expander;
pub use faults::PageFault;
pub use lack::Lack;
pub use step::{PackedChar, Step};
