//! The commands of a DVI file: Knuth, DVItype, "Device-independent file format".

use thiserror::Error;

/// The definition of a font. The name begins with the area, of which `area` is the length. The
/// checksum is that of the font's TFM file; the two sizes are in DVI units.
#[derive(Clone, Copy)]
pub struct FontDef<'a> {
    pub number: i32,
    pub check: u32,
    pub size: i32,
    pub design: i32,
    pub area: u8,
    pub name: &'a [u8],
}

/// A command, with its texts where they lie in the bytes. Heights, widths and motions are in DVI
/// units, down and to the right.
#[derive(Clone, Copy)]
pub enum Command<'a> {
    /// Sets the character with the code and moves to the right by its width.
    Set(i32),
    /// Sets the character with the code and stays.
    Put(i32),
    /// Sets a rule and moves to the right by its width.
    SetRule {
        height: i32,
        width: i32,
    },
    /// Sets a rule and stays.
    PutRule {
        height: i32,
        width: i32,
    },
    /// Does nothing.
    Nop,
    /// Begins a page: its ten counts, and the position of the page begun before, or -1.
    Bop {
        counts: [i32; 10],
        back: i32,
    },
    /// Ends a page.
    Eop,
    /// Saves the position and the spacing.
    Push,
    /// Restores what was saved last.
    Pop,
    /// Moves to the right.
    Right(i32),
    /// Moves to the right by w.
    W0,
    /// Sets w and moves to the right by it.
    W(i32),
    /// Moves to the right by x.
    X0,
    /// Sets x and moves to the right by it.
    X(i32),
    /// Moves down.
    Down(i32),
    /// Moves down by y.
    Y0,
    /// Sets y and moves down by it.
    Y(i32),
    /// Moves down by z.
    Z0,
    /// Sets z and moves down by it.
    Z(i32),
    /// Makes the font with the number current.
    Font(i32),
    /// A text for other programs.
    Special(&'a [u8]),
    /// Defines a font.
    Define(FontDef<'a>),
    /// Begins a document: the version of the format, the unit as the fraction num / den of 10^-7
    /// meters, the magnification in thousandths, and a comment.
    Pre {
        id: u8,
        num: i32,
        den: i32,
        mag: i32,
        text: &'a [u8],
    },
    /// Ends the pages: the position of the last page's beginning, or -1, the preamble's numbers
    /// again, the greatest height and width of a page, the greatest depth of the stack, and the
    /// number of pages.
    Post {
        back: i32,
        num: i32,
        den: i32,
        mag: i32,
        tallest: i32,
        widest: i32,
        deepest: u16,
        pages: u16,
    },
    /// Ends the document: the position of Post, and the version again.
    PostPost {
        post: i32,
        id: u8,
    },
}

/// Where a command is: before the preamble, between pages, on a page, in the packet of a virtual
/// font's character, or after the start of the postamble.
#[derive(Clone, Copy, Debug, PartialEq, Eq)]
pub enum Context {
    Start,
    Between,
    Page,
    Packet,
    Post,
}

/// Why no command was read.
#[derive(Clone, Copy, Debug, PartialEq, Eq, Error)]
pub enum CommandFault {
    /// The bytes end within the command, or before it.
    #[error("short")]
    Short,
    /// The opcode, 250 to 255, belongs to no command.
    #[error("undefined {0}")]
    Undefined(u8),
    /// The command with this opcode isn't allowed in the context.
    #[error("misplaced {0}")]
    Misplaced(u8),
    /// The length of a special is negative.
    #[error("negative length")]
    NegativeLength,
}
