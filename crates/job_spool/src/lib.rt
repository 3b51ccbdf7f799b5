//! A spool: several documents, which one run draws, one after another, over caches that they share.
//!
//! `spool_run` is the run. `spool_pairs` and `spool_numbers` read its arguments, by the definition
//! of a spool's line in `specs/Words.antt`.
#![tactic(auto)]

mod drawing;
mod job;
pub mod laws;
mod notes;
mod numbers;
mod plan;
mod reading;
mod sharing;
mod spool;
mod words;

pub use job::Job;
pub use numbers::{SpoolNumbers, spool_numbers};
pub use spool::spool_run;
pub use words::{MAX_JOBS, Pair, SpoolStop, spool_pairs};
