//! The program over any streams and any opener of font files, and its workers.
#![tactic(auto)]

mod program;
mod workers;

pub use program::{Outcome, draw_streams};
pub use workers::{workers_by, workers_over};
