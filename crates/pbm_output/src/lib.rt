//! Writes a page of dots as a PBM file in its raw form.
#![tactic(auto)]

mod laws;
mod write;

pub use laws::{determined_pages, lengths, worked_page};
pub use write::{WriteFault, write_page, write_page_gathered};
