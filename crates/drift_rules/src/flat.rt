//! A page with its virtual characters expanded, and what a step of the pen marks.
use outside::FontKey;
use std::sync::Arc;

/// A command of a page in which every virtual character is expanded. Lengths and motions are in DVI
/// units; `space` is the size of the font that is current where the command stands, divided by 6
/// and rounded down, and 0 where none is.
#[derive(Drop)]
pub enum Flat {
    /// Nothing: a command that moves and marks nothing.
    Skip,
    /// A character of the font with this key, with its reference point at the present place. A
    /// character that is put, not set, moves nothing; `width` is its width.
    Char {
        key: Arc<FontKey>,
        code: u8,
        width: i64,
        put: bool,
    },
    /// A rule with its lower left corner at the present place. A rule that is put, not set, moves
    /// nothing.
    Rule {
        height: i64,
        width: i64,
        put: bool,
    },
    /// To the right.
    Right {
        by: i64,
        space: i64,
    },
    /// To the right, and w becomes the motion.
    W {
        by: i64,
        space: i64,
    },
    /// To the right, and x becomes the motion.
    X {
        by: i64,
        space: i64,
    },
    /// Down.
    Down {
        by: i64,
        space: i64,
    },
    /// Down, and y becomes the motion.
    Y {
        by: i64,
        space: i64,
    },
    /// Down, and z becomes the motion.
    Z {
        by: i64,
        space: i64,
    },
    /// To the right by w.
    W0 {
        space: i64,
    },
    /// To the right by x.
    X0 {
        space: i64,
    },
    /// Down by y.
    Y0 {
        space: i64,
    },
    /// Down by z.
    Z0 {
        space: i64,
    },
    /// All eight registers are saved, and stay as they are.
    Push,
    /// All eight registers become those that were saved last, which are saved no longer. Nothing is
    /// rounded.
    Pop,
    /// The packet of a virtual character begins: all eight registers are saved, and w, x, y and z
    /// become 0.
    Enter,
    /// The packet ends: all eight registers become those that were saved last, which are saved no
    /// longer. Nothing is rounded.
    Leave,
    /// To the right by the width of a virtual character that was set, after its packet: as far as
    /// over a character of that width.
    Advance {
        width: i64,
    },
}

/// What a step marks, in dots, columns from the left and rows from the top.
#[derive(Clone, Copy, Debug, PartialEq, Eq)]
pub enum Mark {
    /// The character's glyph, with its reference point at this dot.
    Char { hh: i64, vv: i64 },
    /// A black rectangle of `w` columns and `h` rows, at least one of each, with its upper left dot
    /// at column `x` and row `y`.
    Rule { x: i64, y: i64, w: i64, h: i64 },
}

/// The registers: h, v, w, x, y and z in DVI units, hh and vv in dots.
#[derive(Clone, Copy, Debug, PartialEq, Eq)]
pub struct Registers {
    pub h: i64,
    pub v: i64,
    pub w: i64,
    pub x: i64,
    pub y: i64,
    pub z: i64,
    pub hh: i64,
    pub vv: i64,
}
