//! What the expander gives.
use crate::faults::PageFault;
use crate::lack::Lack;
use drift_rules::Flat;
use outside::FontKey;
use pk_runs::Glyph;
use std::sync::Arc;

/// One step of a page.
#[derive(Drop)]
pub enum Step {
    /// The next flat command.
    Flat(Flat),
    /// The key of a font that is needed before the page goes on.
    Ask(Arc<FontKey>),
    /// A character that the page lacks. What comes in its place is the next flat command.
    Lack(Lack),
    /// The page is at its end.
    End,
    /// The page stops here.
    Stop(PageFault),
}

/// A character that is set or put in a packed font: its code, its width in DVI units, whether it is
/// put, its glyph in that font, and the position, in the document, of the page's command that it
/// comes from.
#[derive(Clone, Copy)]
pub struct PackedChar<'e> {
    pub code: u8,
    pub width: i64,
    pub put: bool,
    pub glyph: &'e Glyph,
    pub at: usize,
}
