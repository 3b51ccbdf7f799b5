//! The sheet that a page is drawn on.

/// A sheet: its sides, from 1 to 20,000, and its margins, from 0 to 20,000, in dots. The margins
/// are added to each column and each row. A tolerant one takes a page that lacks a font, a
/// character, a glyph or a packet.
#[derive(Clone, Copy, Debug, PartialEq, Eq)]
pub struct Sheet {
    pub width: u32,
    pub height: u32,
    pub left: u32,
    pub top: u32,
    pub tolerant: bool,
}
