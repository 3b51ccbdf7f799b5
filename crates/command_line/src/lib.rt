//! The arguments of the command line, and the settings that they give.
//!
//! `line` reads them with `clap`. Its contract is by a definition of a line that knows nothing of
//! `clap` (`specs/Line.antt`): what `clap` would accept beyond it is refused by tests before and
//! after it.
#![tactic(auto)]

mod command;
pub mod laws;
mod matches;
mod parse;
mod settings;
mod shape;

pub use parse::{LineStop, line};
pub use settings::{Settings, default_settings, default_sheet};
