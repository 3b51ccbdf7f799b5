//! One run: reads a document, draws its pages, writes their images, and says how it ended.
//!
//! The public calls are `run_with`, for a test or another program, and `dvipbm_run`, for the
//! arguments of a command line; and `draw_job`, the part of a run between its index and its notes,
//! for a program that draws several documents over one cache, with what such a program needs
//! beside it: `read_all`, `open_cache`, `bench_with` and `loads_asked`. Below them are the rounds
//! of pages that workers draw and that are written, and the notes, each a part of its own that the
//! calls' contracts don't name.
#![tactic(auto)]

mod ending;
mod host;
mod job;
pub mod laws;
mod note;
mod opening;
mod own_workers;
mod pages;
mod reading;
mod report;
mod rounds;
mod run;
mod sampled;
mod shared_cache;
mod silence;
mod stages;
mod tally;
mod texts;

pub use command_line::{LineStop, Settings, default_settings, default_sheet, line};
pub use job::draw_job;
pub use opening::{bench_with, open_cache};
pub use reading::{ReadStop, read_all};
pub use report::loads_asked;
pub use run::{dvipbm_run, run_with};
