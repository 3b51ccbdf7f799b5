//! What a sample is.
use outside::Library;

/// A document and the font files that a run of it needs.
#[derive(Drop)]
pub struct Sample {
    pub document: Vec<u8>,
    pub library: Library,
}
