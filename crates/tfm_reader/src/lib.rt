//! The widths of a TFM file (Knuth, TFtoPL, "Font metric data"). All counts, indices and widths are
//! judged when the file is read; the first fault of the file is answered. A width is found by the
//! code's place in a table.
#![tactic(auto)]

mod faults;
pub mod laws;
mod layout;
mod tables;
mod tfm;
pub mod worked;

pub use faults::{TfmFault, TfmStop};
pub use tfm::Tfm;
