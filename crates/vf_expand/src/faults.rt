//! Why a page has no bitmap.
use drift_rules::PenFault;
use font_decode::FontFault;
use outside::FontKey;
use std::sync::Arc;

/// Why a page has no bitmap. Keys are those of the font that is current, but for `NoLocalFont`;
/// codes are those of the commands.
#[derive(Drop)]
pub enum PageFault {
    /// A font change to a number that the document doesn't define.
    NoFont(i32),
    /// A character on the page where no font is current.
    NoCurrentFont,
    /// The font has no width for the code, which says that it has no such character.
    NoCharacter(Arc<FontKey>, i32),
    /// The packed font has no glyph for the code.
    NoGlyph(Arc<FontKey>, i32),
    /// The virtual font has no packet for the code.
    NoPacket(Arc<FontKey>, i32),
    /// In a packet of the virtual font with this key: a font change to a number that none of its
    /// local fonts has, or, without a number, a font change or a character where it has no local
    /// fonts.
    NoLocalFont(Arc<FontKey>, Option<i32>),
    /// The character of a virtual font is in the innermost of ten nested packets.
    Depth(Arc<FontKey>, i32),
    /// The page has 2^24 flat commands, and isn't at its end.
    TooLong,
    /// The font's files have a fault.
    Font(Arc<FontKey>, FontFault),
    /// The pen can't take a command, or the page's end.
    Pen(PenFault),
}
