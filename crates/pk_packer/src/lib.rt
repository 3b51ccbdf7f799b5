//! Rasters packed for a font: by run lengths and repeat counts or as a plain bitmap, whichever
//! takes fewer bytes.
#![tactic(auto)]

mod blocks;
mod counted;
mod digits;
mod kept;
mod laws;
mod lengths;
mod measure;
mod numbers;
mod nybbles;
mod packing;
mod places;
mod plain;
mod row;
mod rows;
mod runs;
mod tally;
mod words;
mod writer;

pub use laws::{plain_bitmaps, runs_written, written_examples};
pub use lengths::Lengths;
pub use packing::{Packed, pack};
pub use plain::{append_plain, plain_size};
