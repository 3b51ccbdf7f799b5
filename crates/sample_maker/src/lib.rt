//! Font files and documents, made byte for byte from what they are to hold: the writers that belong
//! to the readers of this workspace, which read again what is written.
#![tactic(auto)]

mod coded;
mod dvi;
pub mod laws;
mod made;
mod pk;
mod sample_files;
mod sample_glyphs;
mod samples;
mod tfm;
mod vf;

pub use dvi::document;
pub use made::Sample;
pub use pk::{pk_bytes, pk_packed};
pub use samples::{packed_sample, sample};
pub use tfm::tfm_bytes;
pub use vf::vf_bytes;
