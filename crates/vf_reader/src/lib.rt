//! Virtual fonts: the packets and the local fonts of a VF file (Knuth, VFtoVP, "Virtual fonts").
//! Every packet is judged when the file is read, even one that no page uses or that a later one
//! replaces; the first fault of the file is answered. The bytes of the file are kept once, and a
//! packet is given out as a part of them.
#![tactic(auto)]

pub mod examples;
mod faults;
mod font;
mod items;
pub mod laws;
mod limits;
mod local_table;
mod locals;
mod opcodes;
mod packet_table;
mod preamble;
mod program;
mod read;
mod span_map;

pub use faults::{VfFault, VfStop};
pub use font::VfFont;
pub use locals::LocalDef;
