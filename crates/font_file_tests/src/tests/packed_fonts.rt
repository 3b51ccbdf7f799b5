//! PK files, read, and what is wrong with changed ones.

use super::joined;
use pk_packets::{PkFault, PkFont, PkStop};
use pk_runs::{Glyph, RunFault};
use std::alloc::{AllocError as NoMemory, Global};
use std::test::Fail;

// The preamble that the fonts begin with: no comment, and four numbers.
const BEGIN: [u8; 19] = [
    0xf7, 0x59, 0x00, 0x00, 0xa0, 0x00, 0x00, 0x00, 0x00, 0x00, 0x00, 0x00, 0x04, 0x26, 0xae, 0x00,
    0x04, 0x26, 0xae,
];

// The closing command and two no-ops after it.
const END: [u8; 3] = [0xf5, 0xf6, 0xf6];

// What stands between them in four fonts.
const DOT: [u8; 12] = [
    0xe0, 0x09, 0x41, 0x01, 0x00, 0x00, 0x04, 0x02, 0x02, 0x00, 0x01, 0xf0,
];

const BAR: [u8; 14] = [
    0xa8, 0x0b, 0x41, 0x01, 0x80, 0x00, 0x06, 0x03, 0x04, 0x00, 0x03, 0xe2, 0x11, 0x40,
];

const THIN: [u8; 12] = [
    0xe0, 0x09, 0x41, 0x00, 0x60, 0x00, 0x02, 0x01, 0x01, 0x00, 0x00, 0x80,
];

const CORNER: [u8; 13] = [
    0xe0, 0x0a, 0x41, 0x01, 0x00, 0x00, 0x04, 0x04, 0x04, 0x02, 0x02, 0xff, 0xff,
];

const FORMS: [u8; 68] = [
    // the short form: code 65, 3 by 2, offsets -2 and 3
    0xe0,
    9,
    65,
    0,
    0,
    0,
    0,
    3,
    2,
    0xfe,
    3,
    0b1010_1100, //
    // the extended form: code 66, 2 by 1, offsets 258 and -5
    0xe4,
    0,
    14,
    66,
    0,
    0,
    0,
    0,
    0,
    0,
    2,
    0,
    1,
    1,
    2,
    0xff,
    0xfb,
    0b0100_0000, //
    // the long form: code 257, 1 by 2, offsets -256 and 65536
    0xe7,
    0,
    0,
    0,
    29,
    0,
    0,
    1,
    1,
    0,
    0,
    0,
    0,
    0,
    0,
    0,
    0,
    0,
    0,
    0,
    0,
    0,
    0,
    0,
    1,
    0,
    0,
    0,
    2,
    0xff,
    0xff,
    0xff,
    0,
    0,
    1,
    0,
    0,
    0b1000_0000,
];

const AGAIN: [u8; 124] = [
    0xe0, 9, 65, 0, 0, 0, 0, 1, 1, 0, 7, 0x80, // code 65
    0xf0, 2, 0xf5, 0xff, // a special
    0xf1, 0, 1, 0xf5, // one with a length of two bytes
    0xf4, 0, 0, 0xf5, 5, // a number
    0xe0, 9, 66, 0, 0, 0, 0, 1, 1, 0, 8, 0x80, // code 66
    0xf6, // a no-op
    0xe0, 9, 65, 0, 0, 0, 0, 2, 1, 0, 9, 0x40, // code 65 anew
    0xe7, 0, 0, 0, 28, 0, 1, 0, 65, 0, 0, 0, 0, 0, 0, 0, 0, 0, 0, 0, 0, 0, 0, 0, 0, 0, 0, 0, 0, 0,
    0, 0, 1, 0, 0, 0, 2, // code 65601 without dots
    0xe7, 0, 0, 0, 28, 0, 1, 0, 65, 0, 0, 0, 0, 0, 0, 0, 0, 0, 0, 0, 0, 0, 0, 0, 0, 0, 0, 0, 0, 0,
    0, 0, 3, 0, 0, 0, 4, // code 65601 anew
];

// The packet of the letter Ξ (PKtype, "Packed file format"), 20 pixels wide and 29 high.
const XI: [u8; 29] = [
    0x88, 0x1a, 0x1c, 0x09, 0xc7, 0x1c, 0x19, 0x14, 0x1d, 0xfe, 0x17, 0xd9, 0xe2, 0x97, 0x2b, 0x1e,
    0x22, 0x93, 0x24, 0xe3, 0x97, 0x4e, 0x22, 0x93, 0x2c, 0x5e, 0x22, 0x97, 0xd9,
];

// Its sides, its offsets and its rows.
const XI_ROWS: [i64; 33] = [
    20,
    29,
    -2,
    23,
    0b1111_1111_1111_1111_1111,
    0b1111_1111_1111_1111_1111,
    0b1111_1111_1111_1111_1111,
    0b1111_1111_1111_1111_1111,
    0b1100_0000_0000_0000_0011,
    0b1100_0000_0000_0000_0011,
    0b1100_0000_0000_0000_0011,
    0b0000_0000_0000_0000_0000,
    0b0000_0000_0000_0000_0000,
    0b0011_0000_0000_0000_1100,
    0b0011_0000_0000_0000_1100,
    0b0011_0000_0000_0000_1100,
    0b0011_1111_1111_1111_1100,
    0b0011_1111_1111_1111_1100,
    0b0011_1111_1111_1111_1100,
    0b0011_1111_1111_1111_1100,
    0b0011_0000_0000_0000_1100,
    0b0011_0000_0000_0000_1100,
    0b0011_0000_0000_0000_1100,
    0b0000_0000_0000_0000_0000,
    0b0000_0000_0000_0000_0000,
    0b0000_0000_0000_0000_0000,
    0b1100_0000_0000_0000_0011,
    0b1100_0000_0000_0000_0011,
    0b1100_0000_0000_0000_0011,
    0b1111_1111_1111_1111_1111,
    0b1111_1111_1111_1111_1111,
    0b1111_1111_1111_1111_1111,
    0b1111_1111_1111_1111_1111,
];

// A font's items, a code, and its glyph: the width, the height, the offsets to the right and down,
// and each row as a number, with its last pixel in the lowest bit; or nothing.
static GLYPHS: [(&[u8], u32, &[i64]); 17] = [
    (&BAR, 65, &[3, 4, 0, 3, 0b101, 0b101, 0b101, 0b111]),
    (&BAR, 66, &[]),
    (&DOT, 65, &[2, 2, 0, 1, 0b11, 0b11]),
    (&THIN, 65, &[1, 1, 0, 0, 1]),
    (&CORNER, 65, &[4, 4, 2, 2, 0b1111, 0b1111, 0b1111, 0b1111]),
    // The three forms of a packet.
    (&FORMS, 65, &[3, 2, -2, 3, 0b101, 0b011]),
    (&FORMS, 66, &[2, 1, 258, -5, 0b01]),
    (&FORMS, 257, &[1, 2, -256, 65536, 1, 0]),
    (&FORMS, 1, &[]),
    (&FORMS, 256, &[]),
    // The last packet of a code.
    (&AGAIN, 65, &[2, 1, 0, 9, 0b01]),
    (&AGAIN, 66, &[1, 1, 0, 8, 1]),
    (&AGAIN, 65601, &[0, 0, 3, 4]),
    // The letter that PKtype prints.
    (&XI, 28, &XI_ROWS),
    // A font without letters.
    (&[], 0, &[]),
    (&[], 65, &[]),
    (&[], 65536, &[]),
];

// The pixels of a row as a number, the last one in the lowest bit.
fn row_of(glyph: &Glyph, y: u32) -> i64 {
    if y >= glyph.raster.height() {
        return -1;
    }
    let mut bits = 0u32;
    for x in 0..glyph.raster.width() {
        bits = (bits << 1) | u32::from(glyph.raster.black(x, y));
    }
    i64::from(bits)
}

// What a glyph is, in numbers.
pub fn numbers(alloc: Global, glyph: Option<&Glyph>) -> Result<Vec<i64>, NoMemory> {
    let Some(glyph) = glyph else {
        return Ok(Vec::new(alloc));
    };
    let sides = [
        i64::from(glyph.raster.width()),
        i64::from(glyph.raster.height()),
        i64::from(glyph.hoff),
        i64::from(glyph.voff),
    ];
    let mut numbers = Vec::from_slice(alloc, &sides)?;
    for y in 0..glyph.raster.height() {
        numbers.push(row_of(glyph, y))?;
    }
    Ok(numbers)
}

// The glyph of a code in a font of these parts.
fn glyph_in(alloc: Global, parts: &[&[u8]], code: u32) -> Result<Vec<i64>, Fail> {
    let bytes = joined(alloc, parts)?;
    let font = PkFont::read(alloc, &bytes)?;
    Ok(numbers(alloc, font.glyph(code))?)
}

#[test]
fn packed_fonts(rt: HostRuntime) -> Result<(), Fail> {
    for (row, (items, code, want)) in GLYPHS.iter().enumerate() {
        let glyph = glyph_in(rt.alloc(), &[&BEGIN, items, &END], *code)?;
        assert_eq!(rt; glyph.as_slice(), *want, "row {row}");
    }
    Ok(())
}

// The items of a font with bytes of 0xf5 up to these lengths after the first and the second one. A
// packet is as long as its count says with the flag's low bits above it: 256 and 65536 bytes more.
fn long_items(alloc: Global) -> Result<Vec<u8>, NoMemory> {
    let mut items = Vec::from_slice(alloc, &[0xe1, 9, 65, 0, 0, 0, 0, 1, 1, 0, 7, 0x80])?;
    items.resize(3 + 256 + 9, 0xf5)?;
    items.extend_from_slice(&[0xe5, 0, 14, 66, 0, 0, 0, 0, 0, 0, 1, 0, 1, 0, 0, 0, 8, 0x80])?;
    items.resize(3 + 256 + 9 + 4 + 65536 + 14, 0xf5)?;
    items.extend_from_slice(&[0xe0, 9, 67, 0, 0, 0, 0, 1, 1, 0, 9, 0x80])?;
    Ok(items)
}

#[test]
fn low_bits_of_the_flag(rt: HostRuntime) -> Result<(), Fail> {
    let items = long_items(rt.alloc())?;
    for (code, offset) in [(65, 7), (66, 8), (67, 9)] {
        let glyph = glyph_in(rt.alloc(), &[&BEGIN, &items, &END], code)?;
        assert_eq!(rt;
            glyph.as_slice(),
            [1, 1, 0, offset, 1].as_slice(),
            "of {code}"
        );
    }
    Ok(())
}

const PREAMBLE: Option<PkFault> = Some(PkFault::Preamble);

const SHORT: Option<PkFault> = Some(PkFault::Short);

const TOO_BIG: Option<PkFault> = Some(PkFault::TooBig(66));

const FONT_TOO_BIG: Option<PkFault> = Some(PkFault::FontTooBig);

// 16,384 by 4,096 black dots in one run, and one dot.
const MOST: [u8; 24] = [
    0x0c, 0, 20, 65, 0, 0, 0, 0, 0, 0x40, 0, 0x10, 0, 0, 0, 0, 0, 0x00, 0x00, 0x00, 0x3f, 0xff,
    0xf3, 0xf0,
];

const ONE: [u8; 12] = [0xe0, 9, 65, 0, 0, 0, 0, 1, 1, 0, 0, 0x80];

const MOST_AND_ONE: [u8; 36] = [
    0x0c, 0, 20, 65, 0, 0, 0, 0, 0, 0x40, 0, 0x10, 0, 0, 0, 0, 0, 0x00, 0x00, 0x00, 0x3f, 0xff,
    0xf3, 0xf0, //
    0xe0, 9, 65, 0, 0, 0, 0, 1, 1, 0, 0, 0x80,
];

// A packet in the long form without a raster's bytes, and one whose length is too small.
const LONG: [u8; 37] = [
    0xe7, 0, 0, 0, 28, 0, 0, 1, 0, 0, 0, 0, 0, 0, 0, 0, 0, 0, 0, 0, 0, 0, 0, 0, 0, 0, 0, 0, 0, 0,
    0, 0, 0, 0, 0, 0, 0,
];

const LONG_BY_ONE: [u8; 37] = [
    0xe7, 0, 0, 0, 27, 0, 0, 1, 0, 0, 0, 0, 0, 0, 0, 0, 0, 0, 0, 0, 0, 0, 0, 0, 0, 0, 0, 0, 0, 0,
    0, 0, 0, 0, 0, 0, 0,
];

// A file in three parts, and its first fault.
static FAULTS: [([&'static [u8]; 3], Option<PkFault>); 25] = [
    ([&[0xf7, 0x58], &[], &[]], PREAMBLE),
    ([&[0xf5], &[], &[]], PREAMBLE),
    // A comment of three bytes, and one that is too short.
    ([&[0xf7, 0x59, 3], &[0; 19], &[0xf5]], None),
    ([&[0xf7, 0x59, 4], &[0; 19], &[0xf5]], SHORT),
    // Opcodes.
    ([&BEGIN, &[0xf7], &END], Some(PkFault::Undefined(247))),
    ([&BEGIN, &[0xf6, 0xff], &END], Some(PkFault::Undefined(255))),
    ([&BEGIN, &[], &END], None),
    // Lengths at the edge, in the three forms.
    ([&BEGIN, &[0xe0, 8, 65, 0, 0, 0, 0, 0, 0, 0, 0], &END], None),
    (
        [&BEGIN, &[0xe0, 7, 65, 0, 0, 0, 0, 0, 0, 0, 0], &END],
        Some(PkFault::Length(65)),
    ),
    (
        [
            &BEGIN,
            &[0xe4, 0, 13, 66, 0, 0, 0, 0, 0, 0, 0, 0, 0, 0, 0, 0, 0],
            &END,
        ],
        None,
    ),
    (
        [
            &BEGIN,
            &[0xe4, 0, 12, 66, 0, 0, 0, 0, 0, 0, 0, 0, 0, 0, 0, 0, 0],
            &END,
        ],
        Some(PkFault::Length(66)),
    ),
    ([&BEGIN, &LONG, &END], None),
    ([&BEGIN, &LONG_BY_ONE, &END], Some(PkFault::Length(256))),
    // Sides at the edge: the width, and the height.
    (
        [
            &BEGIN,
            &[0xe4, 0, 13, 66, 0, 0, 0, 0, 0, 0x40, 0, 0, 0, 0, 0, 0, 0],
            &END,
        ],
        None,
    ),
    (
        [
            &BEGIN,
            &[0xe4, 0, 13, 66, 0, 0, 0, 0, 0, 0x40, 1, 0, 0, 0, 0, 0, 0],
            &END,
        ],
        TOO_BIG,
    ),
    (
        [
            &BEGIN,
            &[0xe4, 0, 13, 66, 0, 0, 0, 0, 0, 0, 0, 0x40, 0, 0, 0, 0, 0],
            &END,
        ],
        None,
    ),
    (
        [
            &BEGIN,
            &[0xe4, 0, 13, 66, 0, 0, 0, 0, 0, 0, 0, 0x40, 1, 0, 0, 0, 0],
            &END,
        ],
        TOO_BIG,
    ),
    // Sums at the edge.
    ([&BEGIN, &MOST, &END], None),
    ([&BEGIN, &MOST_AND_ONE, &END], FONT_TOO_BIG),
    // The first fault. A length that is too small, in a file that ends before it.
    ([&BEGIN, &[], &[]], SHORT),
    ([&BEGIN, &[0xe4, 0, 12, 66, 0, 0], &END], SHORT),
    // A side that is too long in a packet that is too short.
    (
        [
            &BEGIN,
            &[0xe4, 0, 12, 66, 0, 0, 0, 0, 0, 0x41, 0, 0, 0, 0, 0, 0, 0],
            &END,
        ],
        Some(PkFault::Length(66)),
    ),
    // A side that is too long in a raster that is too big.
    (
        [
            &BEGIN,
            &[0xe4, 0, 13, 66, 0, 0, 0, 0, 0, 0x41, 0, 0x40, 0, 0, 0, 0, 0],
            &END,
        ],
        TOO_BIG,
    ),
    // A raster that is too big without bytes.
    (
        [
            &BEGIN,
            &[0xe4, 0, 13, 66, 0, 0, 0, 0, 0, 0x40, 0, 0x40, 0, 0, 0, 0, 0],
            &END,
        ],
        FONT_TOO_BIG,
    ),
    // A raster without bytes before an undefined opcode.
    (
        [&BEGIN, &[0xe0, 8, 67, 0, 0, 0, 0, 1, 1, 0, 0, 0xff], &END],
        Some(PkFault::Runs(67, RunFault::Short)),
    ),
];

// The first fault of a file, if it has one.
fn fault(alloc: Global, bytes: &[u8]) -> Result<Option<PkFault>, NoMemory> {
    match PkFont::read(alloc, bytes) {
        Ok(_) => Ok(None),
        Err(PkStop::Fault(fault)) => Ok(Some(fault)),
        Err(PkStop::NoMemory) => Err(NoMemory),
    }
}

#[test]
fn faults_of_packed_fonts(rt: HostRuntime) -> Result<(), Fail> {
    for (row, (parts, want)) in FAULTS.iter().enumerate() {
        let bytes = joined(rt.alloc(), parts)?;
        assert_eq!(rt; fault(rt.alloc(), &bytes)?, *want, "row {row}");
    }
    Ok(())
}

static CUT: [&'static [u8]; 4] = [&DOT, &BAR, &THIN, &CORNER];

// The first length of a file, below that with its closing command, at which it isn't too short.
fn long_enough(alloc: Global, bytes: &[u8]) -> Result<Option<usize>, NoMemory> {
    for length in 0..bytes.len().saturating_sub(2) {
        if fault(alloc, &bytes[..length])? != SHORT {
            return Ok(Some(length));
        }
    }
    Ok(None)
}

// Without its closing command a file is too short, wherever it is cut.
#[test]
fn cut_files(rt: HostRuntime) -> Result<(), Fail> {
    for (row, items) in CUT.iter().enumerate() {
        let bytes = joined(rt.alloc(), &[&BEGIN, items, &END])?;
        assert_eq!(rt; long_enough(rt.alloc(), &bytes)?, None, "row {row}");
    }
    Ok(())
}
