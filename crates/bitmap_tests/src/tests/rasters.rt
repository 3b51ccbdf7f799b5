//! A raster whose rows are blackened and copied.

use super::{Shape, bytes_of_dots, raster};
use packed_rows::PackedBitmap;
use std::alloc::{AllocError as NoMemory, Global};
use std::test::Fail;

// All pixels, asked for one by one.
fn pixels(alloc: Global, raster: &PackedBitmap) -> Result<Vec<u8>, NoMemory> {
    let mut pixels = Vec::new(alloc);
    for y in 0..raster.height() {
        for x in 0..raster.width() {
            pixels.push(raster.is_black(x, y))?;
        }
    }
    bytes_of_dots(alloc, raster.width(), &pixels)
}

// The row, and how many rows below it become copies of it.
type Copied = (usize, usize);

// The bytes of all rows: at once, row by row, and pixel by pixel.
fn told(alloc: Global, shape: &Shape, copied: Copied) -> Result<[Vec<u8>; 3], NoMemory> {
    let mut raster = raster(alloc, shape)?;
    let (y, copies) = copied;
    if y < 256 && copies < 256 && y + copies < raster.height() as usize {
        raster.copy_down(y, copies);
    }
    let whole = Vec::from_slice(alloc, raster.rows())?;
    let mut rows = Vec::new(alloc);
    for y in 0..raster.height() {
        rows.extend_from_slice(raster.row(y))?;
    }
    Ok([whole, rows, pixels(alloc, &raster)?])
}

// Black at the columns 6 to 9 of row 1.
const BAR: Shape = (10, 4, &[((6, 10), (1, 2))]);

static ROWS: [(Shape, Copied, &'static [u8]); 2] = [
    (BAR, (1, 0), &[0, 0, 0x03, 0xc0, 0, 0, 0, 0]),
    (BAR, (1, 1), &[0, 0, 0x03, 0xc0, 0x03, 0xc0, 0, 0]),
];

#[test]
fn rows_are_blackened_and_copied(rt: HostRuntime) -> Result<(), Fail> {
    for (row, (shape, copied, want)) in ROWS.iter().enumerate() {
        for (way, bytes) in told(rt.alloc(), shape, *copied)?.iter().enumerate() {
            assert_eq!(rt; bytes.as_slice(), *want, "row {row}, way {way}");
        }
    }
    Ok(())
}
