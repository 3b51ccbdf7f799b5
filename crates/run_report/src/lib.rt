//! What a run prints of itself: the trace, a line for each call of the font cache, and the summary,
//! nine lines of counts. Each text is put into pieces that are gathered for writing, after what was
//! put before, and none takes memory.
#![tactic(auto)]

mod counts;
pub mod key;
pub mod laws;
pub mod puts;
mod summary;
mod tally;
mod trace;

pub use counts::Counts;
pub use summary::put_summary;
pub use trace::put_trace;
