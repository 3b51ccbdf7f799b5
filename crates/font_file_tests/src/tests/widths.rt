//! TFM files, read, and what is wrong with changed ones.
use std::alloc::{AllocError as NoMemory, Global};
use std::test::Fail;
use tfm_reader::{Tfm, TfmFault, TfmStop};

// The code 65 alone, 1/16 of the size wide.
const DOT: [u8; 56] = [
    0, 14, 0, 2, 0, 65, 0, 65, 0, 2, 0, 1, 0, 1, 0, 1, 0, 0, 0, 0, 0, 0, 0, 0, 0, 0, 0, 0, 0, 160,
    0, 0, 1, 0, 0, 0, 0, 0, 0, 0, 0, 1, 0, 0, 0, 0, 0, 0, 0, 0, 0, 0, 0, 0, 0, 0,
];

// Codes 3 to 6, of which 4 has no character, with widths of a half and -1/16, and what no reader
// looks at after them.
const GAPS: [u8; 79] = [
    0, 18, 0, 2, 0, 3, 0, 6, 0, 3, 0, 1, 0, 1, 0, 1, 0, 0, 0, 0, 0, 0, 0, 0, // counts
    0, 0, 0, 0, 0, 160, 0, 0, // header
    1, 0, 0, 0, 0, 0, 0, 0, 2, 0, 0, 0, 1, 0, 0, 0, // char_info
    0, 0, 0, 0, 0, 8, 0, 0, 255, 255, 0, 0, // widths
    0, 0, 0, 0, 0, 0, 0, 0, 0, 0, 0, 0, // heights, depths, italic corrections
    170, 170, 170, 170, 170, 170, 170,
];

// The width of a code in the first `len` bytes of a file of which two are changed, or their fault.
fn width_in(
    alloc: Global,
    file: &[u8],
    len: usize,
    changes: &[(usize, u8); 2],
    code: i32,
) -> Result<Result<Option<i32>, TfmFault>, NoMemory> {
    let mut bytes = Vec::from_slice(alloc, file)?;
    for (at, byte) in changes {
        if *at < bytes.len() {
            bytes[*at] = *byte;
        }
    }
    bytes.truncate(len);
    match Tfm::read(alloc, &bytes) {
        Ok(tfm) => Ok(Ok(tfm.width(code))),
        Err(TfmStop::Fault(fault)) => Ok(Err(fault)),
        Err(TfmStop::NoMemory) => Err(NoMemory),
    }
}

// The first byte of both files is 0, so that `SAME` changes nothing.
const SAME: (usize, u8) = (0, 0);

static ROWS: [(
    &'static [u8],
    usize,
    [(usize, u8); 2],
    i32,
    Result<Option<i32>, TfmFault>,
); 22] = [
    (&DOT, 56, [SAME, SAME], 65, Ok(Some(65536))),
    (&DOT, 56, [SAME, SAME], 66, Ok(None)),
    (&DOT, 56, [SAME, SAME], -1, Ok(None)),
    (&DOT, 56, [SAME, SAME], 70000, Ok(None)),
    (&GAPS, 79, [SAME, SAME], 2, Ok(None)),
    (&GAPS, 79, [SAME, SAME], 3, Ok(Some(524288))),
    (&GAPS, 79, [SAME, SAME], 4, Ok(None)),
    (&GAPS, 79, [SAME, SAME], 5, Ok(Some(-65536))),
    (&GAPS, 79, [SAME, SAME], 6, Ok(Some(524288))),
    (&GAPS, 79, [SAME, SAME], 7, Ok(None)),
    // One fault.
    (&DOT, 56, [(32, 2), SAME], 65, Err(TfmFault::WidthIndex(65))),
    (&DOT, 56, [(39, 1), SAME], 65, Err(TfmFault::WidthZero)),
    (&DOT, 56, [(40, 1), SAME], 65, Err(TfmFault::WidthByte(1))),
    (&DOT, 56, [(1, 15), SAME], 65, Err(TfmFault::Counts)),
    (&DOT, 55, [SAME, SAME], 65, Err(TfmFault::Short)),
    (&GAPS, 79, [(48, 1), SAME], 3, Err(TfmFault::WidthByte(0))),
    // Two at once, next to each other in their order: the first one is reported.
    (&DOT, 23, [(1, 15), SAME], 65, Err(TfmFault::Short)),
    (&DOT, 55, [(1, 15), SAME], 65, Err(TfmFault::Counts)),
    (&DOT, 55, [(32, 2), SAME], 65, Err(TfmFault::Short)),
    (
        &DOT,
        56,
        [(32, 2), (36, 1)],
        65,
        Err(TfmFault::WidthIndex(65)),
    ),
    (
        &DOT,
        56,
        [(36, 1), (39, 1)],
        65,
        Err(TfmFault::WidthByte(0)),
    ),
    (&DOT, 56, [(39, 1), (40, 1)], 65, Err(TfmFault::WidthZero)),
];

#[test]
fn widths_and_first_faults(rt: HostRuntime) -> Result<(), Fail> {
    for (row, (file, len, changes, code, told)) in ROWS.iter().enumerate() {
        let found = width_in(rt.alloc(), file, *len, changes, *code)?;
        assert_eq!(rt; found, *told, "row {row}");
    }
    Ok(())
}
