//! A page of dots: blank, with black rectangles and rasters set on it, read dot by dot or as the
//! packed rows that a PBM file holds.
#![tactic(auto)]

mod laws;
mod page;
mod span;

pub use laws::{either_order, marks};
pub use page::Page;
