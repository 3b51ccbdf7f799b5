//! One row.

use packed_rows::{blacken, is_black, row_bytes};
use std::alloc::{AllocError as NoMemory, Global};
use std::test::Fail;

// The row with these pixels black.
fn blackened(alloc: Global, row: &[u8], from: usize, until: usize) -> Result<Vec<u8>, NoMemory> {
    let mut row = Vec::from_slice(alloc, row)?;
    if row.len() < 100 && from <= until && until <= 8 * row.len() {
        blacken(&mut row, from, until);
    }
    Ok(row)
}

static BLACKENED: [(&'static [u8], usize, usize, &'static [u8]); 4] = [
    // Inside one byte.
    (&[0x81, 0], 2, 4, &[0b1011_0001, 0]),
    (&[0b1011_0001, 0], 7, 7, &[0b1011_0001, 0]),
    // Over byte borders.
    (
        &[0, 0, 0, 0b0100_0000],
        7,
        25,
        &[1, 0xff, 0xff, 0b1100_0000],
    ),
    (&[0, 0], 0, 16, &[0xff, 0xff]),
];

#[test]
fn pixels_are_blackened(rt: HostRuntime) -> Result<(), Fail> {
    for (number, (row, from, until, want)) in BLACKENED.iter().enumerate() {
        let row = blackened(rt.alloc(), row, *from, *until)?;
        assert_eq!(rt; row.as_slice(), *want, "row {number}");
    }
    Ok(())
}

// The first pixel is in the high bit. A column, and whether it is black.
static PIXELS: [(usize, bool); 4] = [(0, true), (1, false), (14, false), (15, true)];

// How many bytes a row of this width takes.
static WIDTHS: [(u32, usize); 3] = [(0, 0), (8, 1), (9, 2)];

#[test]
fn pixels_and_bytes_of_a_row(rt: HostRuntime) {
    let row = [0b1000_0000, 0b0000_0001];
    for (x, black) in PIXELS.iter() {
        assert_eq!(rt; *x < 16 && is_black(&row, *x), *black, "pixel {x}");
    }
    for (width, bytes) in WIDTHS.iter() {
        assert_eq!(rt; row_bytes(*width), *bytes, "width {width}");
    }
}
