//! A character that a page lacks.
use crate::faults::PageFault;

/// A missing font, character, glyph or packet that a tolerant run goes past: its character marks
/// nothing. With the position, in the document, of the page's command that it comes from.
#[derive(Drop)]
pub struct Lack {
    pub fault: PageFault,
    pub at: usize,
}
