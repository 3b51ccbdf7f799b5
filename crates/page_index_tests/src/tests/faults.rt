//! Each fault, at a position worked out by hand.

use super::{File, ONE_PAGE, bytes_of, fault_of};
use dvi_commands::CommandFault;
use page_index::{DocFault, PostField};
use std::alloc::{AllocError as NoMemory, Global};
use std::test::Fail;

// The first length below 109 at which the document isn't truncated at its end, and its fault there.
fn not_truncated(alloc: Global) -> Result<Option<(usize, Option<DocFault>)>, NoMemory> {
    for length in 0..109 {
        let fault = fault_of(alloc, &ONE_PAGE[..length])?;
        if fault != Some(DocFault::Truncated { at: length }) {
            return Ok(Some((length, fault)));
        }
    }
    Ok(None)
}

#[test]
fn a_cut_file_is_truncated_at_its_end(rt: HostRuntime) -> Result<(), Fail> {
    assert_eq!(rt; not_truncated(rt.alloc())?, None);
    Ok(())
}

// The preamble, and then font 0 twice: size and design size 128, no area, "dot". Another checksum
// is no clash.
const DEFINED: [u8; 53] = [
    0xf7, 2, 0, 0, 0x04, 0xf6, 0, 0, 0, 3, 0, 0, 0x03, 0xe8, 0, //
    0xf3, 0, 0, 0, 0, 0, 0, 0, 0, 128, 0, 0, 0, 128, 0, 3, 100, 111, 116, //
    0xf3, 0, 9, 9, 9, 9, 0, 0, 0, 128, 0, 0, 0, 128, 0, 3, 100, 111, 116,
];

// The preamble, and then a definition with a number of four bytes and one of three.
const FOUR: [u8; 34] = [
    0xf7, 2, 0, 0, 0x04, 0xf6, 0, 0, 0, 3, 0, 0, 0x03, 0xe8, 0, //
    0xf6, 0xff, 0xff, 0xff, 0xff, 0, 0, 0, 0, 0, 0, 0, 0, 0, 0, 0, 1, 0, 0,
];

const THREE: [u8; 33] = [
    0xf7, 2, 0, 0, 0x04, 0xf6, 0, 0, 0, 3, 0, 0, 0x03, 0xe8, 0, //
    0xf5, 0xff, 0xff, 0xff, 0, 0, 0, 0, 0, 0, 0, 0, 0, 0, 0, 1, 0, 0,
];

// A unit of more than 512 dots. num = 254 * 512 * 10^6 / (300 * 10^3) would be 433493.3: with den 1
// and mag 1000 it is the limit, and the next two have less and more.
const HUGE: [u8; 12] = [0x7f, 0xff, 0xff, 0xff, 0, 0, 0, 1, 0, 0, 0x03, 0xe8];

const LESS: [u8; 12] = [0, 0x06, 0x9d, 0x55, 0, 0, 0, 1, 0, 0, 0x03, 0xe8];

const MORE: [u8; 12] = [0, 0x06, 0x9d, 0x56, 0, 0, 0, 1, 0, 0, 0x03, 0xe8];

// A file, and its first fault.
static FAULTS: [(File, Option<DocFault>); 45] = [
    // Cut before the last bytes 223 the document is read.
    ((&ONE_PAGE, 109, 0, &[]), None),
    ((&ONE_PAGE, 110, 0, &[]), None),
    ((&ONE_PAGE, 111, 0, &[]), None),
    ((&ONE_PAGE, 112, 0, &[]), None),
    // The preamble, field by field.
    (
        (&ONE_PAGE, 112, 0, &[0xf6]),
        Some(DocFault::Preamble { at: 0 }),
    ),
    (
        (&ONE_PAGE, 112, 1, &[3]),
        Some(DocFault::Preamble { at: 1 }),
    ),
    (
        (&ONE_PAGE, 112, 2, &[0x80]),
        Some(DocFault::Preamble { at: 2 }),
    ),
    (
        (&ONE_PAGE, 112, 9, &[0]),
        Some(DocFault::Preamble { at: 6 }),
    ),
    (
        (&ONE_PAGE, 112, 10, &[0xff]),
        Some(DocFault::Preamble { at: 10 }),
    ),
    // A field that is there is judged before what is missing after it.
    ((&[0], 1, 0, &[]), Some(DocFault::Preamble { at: 0 })),
    (
        (&[0xf7, 2, 0, 0, 0, 0], 6, 0, &[]),
        Some(DocFault::Preamble { at: 2 }),
    ),
    (
        (&[0xf7, 2, 0, 0, 0], 5, 0, &[]),
        Some(DocFault::Truncated { at: 5 }),
    ),
    // A unit is judged before the text: the file may end after mag.
    ((&ONE_PAGE, 112, 2, &HUGE), Some(DocFault::Scale { at: 2 })),
    ((&ONE_PAGE, 14, 2, &HUGE), Some(DocFault::Scale { at: 2 })),
    (
        (&ONE_PAGE, 13, 2, &HUGE),
        Some(DocFault::Truncated { at: 13 }),
    ),
    (
        (&ONE_PAGE, 112, 2, &LESS),
        Some(DocFault::Postamble {
            field: PostField::Num,
            at: 70,
        }),
    ),
    ((&ONE_PAGE, 112, 2, &MORE), Some(DocFault::Scale { at: 2 })),
    // Commands that aren't read.
    (
        (&ONE_PAGE, 112, 60, &[0xfa]),
        Some(DocFault::Command {
            fault: CommandFault::Undefined(250),
            at: 60,
        }),
    ),
    (
        (&ONE_PAGE, 112, 60, &[0x8b]),
        Some(DocFault::Command {
            fault: CommandFault::Misplaced(139),
            at: 60,
        }),
    ),
    (
        (&ONE_PAGE, 112, 15, &[0x41]),
        Some(DocFault::Command {
            fault: CommandFault::Misplaced(65),
            at: 15,
        }),
    ),
    (
        (&ONE_PAGE, 112, 99, &[0x8c]),
        Some(DocFault::Command {
            fault: CommandFault::Misplaced(140),
            at: 99,
        }),
    ),
    (
        (&ONE_PAGE, 112, 60, &[0xf2, 0xff, 0xff, 0xff, 0xff]),
        Some(DocFault::Command {
            fault: CommandFault::NegativeLength,
            at: 60,
        }),
    ),
    // The number of a character in one byte, and of a font in four, is cut off.
    (
        (&ONE_PAGE, 61, 60, &[0x80]),
        Some(DocFault::Truncated { at: 61 }),
    ),
    (
        (&ONE_PAGE, 64, 60, &[0xee, 0xff, 0xff, 0xff]),
        Some(DocFault::Truncated { at: 64 }),
    ),
    // Pointers and numbers of the frame.
    (
        (&ONE_PAGE, 112, 59, &[0xfe]),
        Some(DocFault::BackPointer { at: 15 }),
    ),
    (
        (&ONE_PAGE, 112, 74, &[77]),
        Some(DocFault::Postamble {
            field: PostField::Pointer,
            at: 70,
        }),
    ),
    (
        (&ONE_PAGE, 112, 78, &[77]),
        Some(DocFault::Postamble {
            field: PostField::Num,
            at: 70,
        }),
    ),
    (
        (&ONE_PAGE, 112, 82, &[77]),
        Some(DocFault::Postamble {
            field: PostField::Den,
            at: 70,
        }),
    ),
    (
        (&ONE_PAGE, 112, 86, &[77]),
        Some(DocFault::Postamble {
            field: PostField::Mag,
            at: 70,
        }),
    ),
    (
        (&ONE_PAGE, 112, 98, &[77]),
        Some(DocFault::Postamble {
            field: PostField::Pages,
            at: 70,
        }),
    ),
    // The greatest height and width and the deepest stack are passed over.
    ((&ONE_PAGE, 112, 87, &[1, 2, 3, 4, 5, 6, 7, 8, 9, 10]), None),
    // The trailer, field by field.
    (
        (&ONE_PAGE, 112, 103, &[0x45]),
        Some(DocFault::Trailer { at: 100 }),
    ),
    (
        (&ONE_PAGE, 112, 104, &[3]),
        Some(DocFault::Trailer { at: 104 }),
    ),
    (
        (&ONE_PAGE, 112, 105, &[0xde]),
        Some(DocFault::Trailer { at: 105 }),
    ),
    (
        (&ONE_PAGE, 112, 111, &[0]),
        Some(DocFault::Trailer { at: 111 }),
    ),
    // The pointer is judged before the identifier, which is missing, and a wrong byte before the
    // end.
    (
        (&ONE_PAGE, 104, 103, &[0x45]),
        Some(DocFault::Trailer { at: 100 }),
    ),
    (
        (&ONE_PAGE, 107, 106, &[0]),
        Some(DocFault::Trailer { at: 106 }),
    ),
    // Definitions have sizes and agree.
    ((&DEFINED, 34, 0, &[]), Some(DocFault::Truncated { at: 34 })),
    ((&DEFINED, 53, 0, &[]), Some(DocFault::Truncated { at: 53 })),
    // Another size is a clash, and another area under the same name.
    (
        (&DEFINED, 53, 43, &[129]),
        Some(DocFault::FontClash { number: 0, at: 34 }),
    ),
    (
        (&DEFINED, 53, 48, &[1, 2]),
        Some(DocFault::FontClash { number: 0, at: 34 }),
    ),
    // A size of 0 comes before the clash, and a design size of 2^27.
    (
        (&DEFINED, 53, 43, &[0, 0, 0, 0, 128, 1, 2]),
        Some(DocFault::FontDef { number: 0, at: 34 }),
    ),
    (
        (&DEFINED, 53, 43, &[128, 8, 0, 0, 0, 1, 2]),
        Some(DocFault::FontDef { number: 0, at: 34 }),
    ),
    // A number of four bytes is signed, one of three isn't.
    (
        (&FOUR, 34, 0, &[]),
        Some(DocFault::FontDef { number: -1, at: 15 }),
    ),
    (
        (&THREE, 33, 0, &[]),
        Some(DocFault::FontDef {
            number: 16_777_215,
            at: 15,
        }),
    ),
];

#[test]
fn first_faults(rt: HostRuntime) -> Result<(), Fail> {
    for (row, (file, want)) in FAULTS.iter().enumerate() {
        let bytes = bytes_of(rt.alloc(), file)?;
        assert_eq!(rt; fault_of(rt.alloc(), &bytes)?, *want, "row {row}");
    }
    Ok(())
}
