//! The numbers that one to four bytes spell, the most significant byte first.
//!
//! Every number of a DVI, VF, TFM or PK file is spelled this way, unsigned or in two's complement
//! (Knuth, DVItype, "Device-independent file format" and "Input from binary files"). This crate
//! reads them, and defines both readings for the crates above it.
#![tactic(auto)]

mod laws;
mod numbers;

pub use crate::laws::numbers_both_ways;
pub use crate::numbers::{signed, unsigned};
