//! GF files, read, and what is wrong with changed ones.

use super::joined;
use super::packed_fonts::numbers;
use gf_reader::{GfFault, GfFont, GfStop};
use std::alloc::{AllocError as NoMemory, Global};
use std::test::Fail;

// The preamble that the fonts begin with, without a comment, and the closing command with two bytes
// after it.
const BEGIN: [u8; 3] = [0xf7, 0x83, 0x00];

const END: [u8; 3] = [0xf8, 0x00, 0xff];

// The letter A, two by two black dots, and with a third column that stays white.
const DOT: [u8; 11] = [68, 65, 1, 1, 1, 1, 0, 2, 74, 2, 69];

const WIDE_DOT: [u8; 11] = [68, 65, 2, 2, 1, 1, 0, 2, 74, 2, 69];

// Columns -2 to 3 and rows -1 to 3, with every kind of command.
const COMMANDS: [u8; 61] = [
    67, 0, 0, 0, 65, 0xff, 0xff, 0xff, 0xff, 0xff, 0xff, 0xff, 0xfe, 0, 0, 0, 3, 0xff, 0xff, 0xff,
    0xff, 0, 0, 0, 3, //
    1, 2, 1, 1, 244, // .##.#
    75, 64, 3, // a new row from column 1: .###
    239, 1, 69, // a special with a byte
    71, 1, 65, 0, 5, 66, 0, 0, 1, // two rows down, white: .....#
    70, 243, 0, 0, 0, 69, 65, 0, 6, // the last row, white
    69, // the end, and what may stand between characters
    240, 0, 1, 248, 244, 244,
];

// Two characters with the code 65, one with the code -1, and one with the code 257 without columns.
const AGAIN: [u8; 70] = [
    68, 65, 0, 0, 0, 0, 0, 1, 69, // a dot
    68, 65, 1, 1, 0, 7, 1, 1, 69, // another one, in the second column
    67, 0xff, 0xff, 0xff, 0xff, 0, 0, 0, 0, 0, 0, 0, 0, 0, 0, 0, 0, 0, 0, 0, 0, 0, 0, 0, 0, 69, //
    67, 0, 0, 1, 1, 0, 0, 0, 0, 0, 0, 0, 5, 0, 0, 0, 4, 0, 0, 0, 0, 0, 0, 0, 9, 69,
];

// A font's items, a code, and its glyph: the width, the height, the offsets to the right and down,
// and each row as a number, with its last pixel in the lowest bit; or nothing.
static GLYPHS: [(&[u8], u32, &[i64]); 11] = [
    (&DOT, 65, &[2, 2, 0, 1, 0b11, 0b11]),
    (&DOT, 66, &[]),
    (&WIDE_DOT, 65, &[3, 2, 0, 1, 0b110, 0b110]),
    (
        &COMMANDS,
        65,
        &[6, 5, 2, 3, 0b011010, 0b011100, 0, 0b000001, 0],
    ),
    // The last character of a code.
    (&AGAIN, 65, &[2, 1, 0, 7, 0b01]),
    // No page asks for the code -1.
    (&AGAIN, 255, &[]),
    (&AGAIN, 4294967295, &[]),
    // A raster without columns has no rows.
    (&AGAIN, 257, &[0, 0, -5, 9]),
    (&AGAIN, 1, &[]),
    // A font without letters.
    (&[], 0, &[]),
    (&[], 65536, &[]),
];

// The glyph of a code in a font of these parts.
fn glyph_in(alloc: Global, parts: &[&[u8]], code: u32) -> Result<Vec<i64>, Fail> {
    let bytes = joined(alloc, parts)?;
    let font = GfFont::read(alloc, &bytes)?;
    Ok(numbers(alloc, font.glyph(code))?)
}

#[test]
fn generic_fonts(rt: HostRuntime) -> Result<(), Fail> {
    for (row, (items, code, want)) in GLYPHS.iter().enumerate() {
        let glyph = glyph_in(rt.alloc(), &[&BEGIN, items, &END], *code)?;
        assert_eq!(rt; glyph.as_slice(), *want, "row {row}");
    }
    Ok(())
}

const PREAMBLE: Option<GfFault> = Some(GfFault::Preamble);

const SHORT: Option<GfFault> = Some(GfFault::Short);

// Columns 0 to 16,384 of no rows, of the code -2.
const WIDE: [u8; 26] = [
    67, 0xff, 0xff, 0xff, 0xfe, 0, 0, 0, 0, 0, 0, 0, 0, 0, 0, 0x40, 0, 0, 0, 0, 5, 0, 0, 0, 0, 69,
];

// One column fewer.
const WIDEST: [u8; 26] = [
    67, 0xff, 0xff, 0xff, 0xfe, 0, 0, 0, 0, 0, 0, 0, 0, 0, 0, 0x3f, 0xff, 0, 0, 0, 5, 0, 0, 0, 0,
    69,
];

// The column -2147483648 alone.
const FAR: [u8; 26] = [
    67, 0, 0, 0, 7, 0, 0, 0, 0, 0x80, 0, 0, 0, 0x80, 0, 0, 0, 0, 0, 0, 0, 0, 0, 0, 0, 69,
];

// 16,384 columns of 4,096 and of 4,097 rows.
const MOST: [u8; 26] = [
    67, 0, 0, 0, 7, 0, 0, 0, 0, 0, 0, 0, 0, 0, 0, 0x3f, 0xff, 0, 0, 0, 0, 0, 0, 0x0f, 0xff, 69,
];

const TOO_MUCH: [u8; 26] = [
    67, 0, 0, 0, 7, 0, 0, 0, 0, 0, 0, 0, 0, 0, 0, 0x3f, 0xff, 0, 0, 0, 0, 0, 0, 0x10, 0, 69,
];

// A file in three parts, and its first fault.
static FAULTS: [([&'static [u8]; 3], Option<GfFault>); 26] = [
    ([&[0xf8], &[], &[]], PREAMBLE),
    ([&[0xf7, 0x82], &[], &[]], PREAMBLE),
    // A comment of one byte, and one that is too short.
    ([&[0xf7, 0x83, 1], &[9], &[0xf8]], None),
    ([&[0xf7, 0x83, 1], &[], &[]], SHORT),
    ([&BEGIN, &[], &END], None),
    // Opcodes: anywhere, between characters and in one. A misplaced one counts before its fields
    // that are cut off.
    ([&BEGIN, &[245], &END], Some(GfFault::Misplaced(245))),
    ([&BEGIN, &[249], &[]], Some(GfFault::Misplaced(249))),
    ([&BEGIN, &[0], &END], Some(GfFault::Misplaced(0))),
    ([&BEGIN, &[69], &END], Some(GfFault::Misplaced(69))),
    ([&BEGIN, &[71], &[]], Some(GfFault::Misplaced(71))),
    ([&BEGIN, &[239, 2, 0], &[]], SHORT),
    (
        [&BEGIN, &[68, 65, 0, 0, 0, 0], &[67]],
        Some(GfFault::Misplaced(67)),
    ),
    (
        [&BEGIN, &[68, 65, 0, 0, 0, 0], &END],
        Some(GfFault::Misplaced(248)),
    ),
    ([&BEGIN, &[68, 65, 0, 0, 0, 0, 69], &[]], SHORT),
    // Three black dots in two columns.
    (
        [&BEGIN, &[68, 65, 1, 1, 1, 1, 0, 3, 74, 2, 69], &END],
        Some(GfFault::Outside(65)),
    ),
    // A black dot right of one column, and below one row; white ones, and no black ones, there.
    (
        [&BEGIN, &[68, 65, 0, 0, 0, 0, 1, 1, 69], &END],
        Some(GfFault::Outside(65)),
    ),
    (
        [&BEGIN, &[68, 66, 0, 0, 0, 0, 74, 1, 69], &END],
        Some(GfFault::Outside(66)),
    ),
    (
        [&BEGIN, &[68, 66, 0, 0, 0, 0, 9, 0, 74, 0, 9, 69], &END],
        None,
    ),
    // A run is judged before the end of its row.
    (
        [&BEGIN, &[68, 65, 0, 0, 0, 0, 1, 1, 255], &END],
        Some(GfFault::Outside(65)),
    ),
    // A row far below the last one.
    (
        [
            &BEGIN,
            &[68, 65, 0, 0, 0, 0, 73, 0xff, 0xff, 0xff, 69],
            &END,
        ],
        None,
    ),
    // Sides at the edge, also beside an empty one.
    ([&BEGIN, &WIDEST, &END], None),
    ([&BEGIN, &WIDE, &END], Some(GfFault::TooBig(-2))),
    ([&BEGIN, &FAR, &END], Some(GfFault::TooBig(7))),
    // Sums at the edge; a raster that a later one replaces counts.
    ([&BEGIN, &MOST, &END], None),
    ([&BEGIN, &TOO_MUCH, &END], Some(GfFault::FontTooBig)),
    ([&BEGIN, &MOST, &DOT], Some(GfFault::FontTooBig)),
];

// The first fault of a file, if it has one.
fn fault(alloc: Global, bytes: &[u8]) -> Result<Option<GfFault>, NoMemory> {
    match GfFont::read(alloc, bytes) {
        Ok(_) => Ok(None),
        Err(GfStop::Fault(fault)) => Ok(Some(fault)),
        Err(GfStop::NoMemory) => Err(NoMemory),
    }
}

#[test]
fn faults_of_generic_fonts(rt: HostRuntime) -> Result<(), Fail> {
    for (row, (parts, want)) in FAULTS.iter().enumerate() {
        let bytes = joined(rt.alloc(), parts)?;
        assert_eq!(rt; fault(rt.alloc(), &bytes)?, *want, "row {row}");
    }
    Ok(())
}

// Each cut before the closing command makes a file too short.
#[test]
fn cut_generic_fonts(rt: HostRuntime) -> Result<(), Fail> {
    let bytes = joined(rt.alloc(), &[&BEGIN, &DOT])?;
    for length in 0..bytes.len() {
        assert_eq!(rt; fault(rt.alloc(), &bytes[..length])?, SHORT, "of {length}");
    }
    Ok(())
}
