//! The index of a DVI document: its pages, its fonts and its units, or the first fault of the file.
//!
//! Knuth, DVItype, "Device-independent file format". A file is read once, from the left, and
//! nothing but the names of its fonts is copied.
#![tactic(auto)]

mod faults;
mod fonts;
mod index;
pub mod laws;
mod limits;
mod preamble;
mod progress;
mod read;
mod trailer;
mod walk;

pub use faults::{DocFault, IndexStop, PostField};
pub use index::{Index, PageBytes};
pub use limits::{MAX_DOCUMENT_LENGTH, MAX_PAGES, SIZES};
