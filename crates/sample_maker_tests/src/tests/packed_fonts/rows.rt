//! The glyphs, and what their files are to have.

// The preamble that each file begins with.
const PREAMBLE: &[u8] = &[
    0xf7, 0x59, 0, 0, 0xa0, 0, 0, 0, 0, 0, 0, 0, 0x04, 0x26, 0xae, 0, 0x04, 0x26, 0xae,
];

// Rows 101 and 011: the bits 1010 11, and two zero bits.
const SHORT: &[u8] = &[0b1010_1100];

// The first and the last of 300 pixels are black. Of 38 bytes the last holds four pixels.
const WIDE: &[u8] = &[
    0x80, 0, 0, 0, 0, 0, 0, 0, 0, 0, 0, 0, 0, 0, 0, 0, 0, 0, 0, 0, 0, 0, 0, 0, 0, 0, 0, 0, 0, 0, 0,
    0, 0, 0, 0, 0, 0, 0x10,
];

// A glyph of one character: its code, the bytes of its plain bitmap, its columns and rows, and its
// offsets.
type Shape = (u8, &'static [u8], u32, u32, i32, i32);

// A glyph in the short form, one in the extended form, one in the long form, since -32,769 is out
// of two bytes, and one in the short form with 256 bytes of black pixels, where the length 264 has
// its high bits in the flag.
pub(super) static SHAPES: [Shape; 4] = [
    (65, SHORT, 3, 2, -2, 3),
    (66, WIDE, 300, 1, -1, 0),
    (255, &[0x80], 1, 1, -32769, 40000),
    (7, &[0xff; 256], 64, 32, 127, -128),
];

// Whether the glyphs are packed, the place of the file, how long it is, and bytes of it from one
// place on.
type Part = (bool, usize, usize, usize, &'static [u8]);

pub(super) static PARTS: [Part; 22] = [
    (false, 0, 32, 0, PREAMBLE),
    // flag, length, code, sides, offsets, bitmap
    (
        false,
        0,
        32,
        19,
        &[0xe0, 9, 65, 0, 0, 0, 0, 3, 2, 0xfe, 3, 0xac, 0xf5],
    ),
    (false, 1, 76, 0, PREAMBLE),
    (
        false,
        1,
        76,
        19,
        &[
            0xe4, 0, 51, 66, 0, 0, 0, 0, 0, // flag, length, code, the width and the escapement
            1, 44, 0, 1, 0xff, 0xff, 0, 0, // sides and offsets
            0x80,
        ],
    ),
    (false, 1, 76, 73, &[0x10, 0xf5, 0xf6]),
    (false, 2, 60, 0, PREAMBLE),
    (
        false,
        2,
        60,
        19,
        &[
            0xe7, 0, 0, 0, 29, 0, 0, 0, 255, // flag, length and code
            0, 0, 0, 0, 0, 0, 0, 0, 0, 0, 0, 0, // the width and the escapements
            0, 0, 0, 1, 0, 0, 0, 1, 0xff, 0xff, 0x7f, 0xff, 0, 0, 0x9c, 0x40, // sides, offsets
            0x80, 0xf5, 0xf6, 0xf6,
        ],
    ),
    (false, 3, 288, 0, PREAMBLE),
    (
        false,
        3,
        288,
        19,
        &[0xe1, 8, 7, 0, 0, 0, 0, 64, 32, 127, 0x80, 0xff],
    ),
    (false, 3, 288, 285, &[0xff, 0xf5, 0xf6]),
    (
        false,
        4,
        44,
        19,
        &[
            0xe0, 8, 1, 0, 0, 0, 0, 0, 2, 5, 0, // the empty one
            0xe0, 9, 0, 0, 0, 0, 0, 1, 1, 0, 0, 0x80, // the dot
            0xf5, 0xf6,
        ],
    ),
    (false, 5, 20, 0, PREAMBLE),
    (false, 5, 20, 19, &[0xf5]),
    (true, 0, 32, 0, PREAMBLE),
    // The plain bitmap: the runs 1 1 1 1 2 take five nybbles at the least.
    (
        true,
        0,
        32,
        19,
        &[0xe0, 9, 65, 0, 0, 0, 0, 3, 2, 0xfe, 3, 0xac, 0xf5],
    ),
    (true, 1, 40, 0, PREAMBLE),
    // The runs 1, 298 and 1: with dyn_f 1 the second is 0, 7 and 8, from 298 + 15 - 193 = 0x78.
    (
        true,
        1,
        40,
        19,
        &[
            0x1c, 0, 16, 66, 0, 0, 0, 0, 0, // flag, length, code, the width and the escapement
            1, 44, 0, 1, 0xff, 0xff, 0, 0, // sides and offsets
            0x10, 0x78, 0x10, 0xf5,
        ],
    ),
    (true, 2, 60, 0, PREAMBLE),
    // One run of one nybble, and not the bitmap, which has one byte too.
    (
        true,
        2,
        60,
        19,
        &[
            0x1f, 0, 0, 0, 29, 0, 0, 0, 255, // flag, length and code
            0, 0, 0, 0, 0, 0, 0, 0, 0, 0, 0, 0, // the width and the escapements
            0, 0, 0, 1, 0, 0, 0, 1, 0xff, 0xff, 0x7f, 0xff, 0, 0, 0x9c, 0x40, // sides, offsets
            0x10, 0xf5, 0xf6, 0xf6,
        ],
    ),
    (true, 3, 36, 0, PREAMBLE),
    // One run of 2048 over all rows: 0, 0 and the digits of 2048 + 15 - 208 = 0x73f.
    (
        true,
        3,
        36,
        19,
        &[
            0x08, 11, 7, 0, 0, 0, 0, 64, 32, 127, 0x80, 0x00, 0x73, 0xf0, 0xf5, 0xf6, 0xf6,
        ],
    ),
    (
        true,
        4,
        44,
        19,
        &[
            0x00, 8, 1, 0, 0, 0, 0, 0, 2, 5, 0, // the empty one has no bytes
            0x18, 9, 0, 0, 0, 0, 0, 1, 1, 0, 0, 0x10, // the dot
            0xf5, 0xf6,
        ],
    ),
];

// Whether the glyphs are packed, the place of the file, a code, what is told of its glyph (the
// size, the offsets and how many pixels are black), and whether a pixel of it is black.
type Read = (
    bool,
    usize,
    u32,
    Option<(u32, u32, i32, i32, u32)>,
    (u32, u32, bool),
);

pub(super) static GLYPHS: [Read; 20] = [
    (false, 0, 65, Some((3, 2, -2, 3, 4)), (2, 0, true)),
    (false, 0, 65, Some((3, 2, -2, 3, 4)), (0, 1, false)),
    (false, 0, 66, None, (0, 0, false)),
    (false, 1, 66, Some((300, 1, -1, 0, 2)), (0, 0, true)),
    (false, 1, 66, Some((300, 1, -1, 0, 2)), (299, 0, true)),
    (false, 2, 255, Some((1, 1, -32769, 40000, 1)), (0, 0, true)),
    (false, 3, 7, Some((64, 32, 127, -128, 2048)), (0, 0, true)),
    (false, 4, 1, Some((0, 2, 5, 0, 0)), (0, 0, false)),
    (false, 4, 0, Some((1, 1, 0, 0, 1)), (0, 0, true)),
    (false, 5, 0, None, (0, 0, false)),
    (true, 0, 65, Some((3, 2, -2, 3, 4)), (2, 0, true)),
    (true, 0, 1, None, (0, 0, false)),
    (true, 1, 66, Some((300, 1, -1, 0, 2)), (299, 0, true)),
    (true, 1, 1, None, (0, 0, false)),
    (true, 2, 255, Some((1, 1, -32769, 40000, 1)), (0, 0, true)),
    (true, 2, 1, None, (0, 0, false)),
    (true, 3, 7, Some((64, 32, 127, -128, 2048)), (0, 0, true)),
    (true, 3, 1, None, (0, 0, false)),
    (true, 4, 1, Some((0, 2, 5, 0, 0)), (0, 0, false)),
    (true, 4, 0, Some((1, 1, 0, 0, 1)), (0, 0, true)),
];
