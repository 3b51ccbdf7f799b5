//! Rasters from their bytes, and what is wrong with some.

use pk_runs::{Raster, RunFault, RunStop, raster};
use std::alloc::{AllocError as NoMemory, Global};
use std::test::Fail;

// A raster's width, its height, and each row as a number, with its last pixel in the lowest bit; or
// its fault.
type Told = (&'static [u64], Option<RunFault>);

// The bytes, the dyn_f, whether the first run is black, the width and the height.
type Given = (&'static [u8], u8, bool, u32, u32);

static RASTERS: [(Given, Told); 22] = [
    // The shortest and the longest spellings.
    (
        (&[0xdf], 10, true, 58, 1),
        (&[58, 1, 0x3ff_ffff_ffff_ffff], None),
    ),
    (
        (&[0x01, 0x00], 10, true, 59, 1),
        (&[59, 1, 0x7ff_ffff_ffff_ffff], None),
    ),
    ((&[0x12], 13, false, 3, 1), (&[3, 1, 0b011], None)),
    // Rows are repeated.
    ((&[0x2f, 0x20], 10, true, 2, 3), (&[2, 3, 0b11, 0, 0], None)),
    (
        (&[0xe2, 0x11, 0x40], 8, true, 3, 4),
        (&[3, 4, 0b101, 0b101, 0b101, 0b111], None),
    ),
    // Runs go over row ends.
    (
        (&[0x43, 0x20], 10, true, 3, 3),
        (&[3, 3, 0b111, 0b100, 0b011], None),
    ),
    (
        (&[0x1f, 0x21], 10, true, 2, 3),
        (&[2, 3, 0b10, 0b10, 0b01], None),
    ),
    // Repeat counts in a row.
    (
        (&[0x1e, 0x21, 0x20], 10, true, 2, 4),
        (&[2, 4, 0b10, 0b10, 0b10, 0b11], None),
    ),
    ((&[0xf2], 10, true, 2, 2), (&[2, 2, 0b11, 0b11], None)),
    ((&[0xe1, 0x20], 10, true, 2, 2), (&[2, 2, 0b11, 0b11], None)),
    // Nybbles are left over.
    ((&[0x2f, 0xff], 10, true, 2, 1), (&[2, 1, 0b11], None)),
    // One pixel, one row and one column.
    ((&[0x10], 10, true, 1, 1), (&[1, 1, 1], None)),
    ((&[0x45], 10, true, 9, 1), (&[9, 1, 0b111100000], None)),
    (
        (&[0x45], 10, true, 1, 9),
        (&[1, 9, 1, 1, 1, 1, 0, 0, 0, 0, 0], None),
    ),
    // A plain raster, and one without rows.
    (
        (&[0b1101_0000], 14, false, 2, 2),
        (&[2, 2, 0b11, 0b01], None),
    ),
    ((&[], 3, false, 5, 0), (&[5, 0], None)),
    // Faults.
    (
        (&[0xf1, 0xf1], 10, true, 2, 4),
        (&[], Some(RunFault::SecondRepeat(0))),
    ),
    ((&[0x30], 10, true, 2, 1), (&[], Some(RunFault::Overrun))),
    ((&[0x11], 10, true, 3, 1), (&[], Some(RunFault::Short))),
    (
        (&[0xe2, 0x20], 10, true, 2, 2),
        (&[], Some(RunFault::TooManyRows)),
    ),
    ((&[0xff], 14, true, 9, 1), (&[], Some(RunFault::Short))),
    (
        (
            &[
                0, 0, 0, 0, 0, 0, 0, 0, 0, 0, 0x10, 0, 0, 0, 0, 0, 0, 0, 0, 0, 0,
            ],
            0,
            true,
            1,
            1,
        ),
        (&[], Some(RunFault::Overrun)),
    ),
];

// The pixels of a row as a number, the last one in the lowest bit.
fn row_of(raster: &Raster, y: u32) -> u64 {
    if y >= raster.height() || raster.width() > 63 {
        return u64::MAX;
    }
    let mut bits = 0u64;
    for x in 0..raster.width() {
        bits = (bits << 1) | u64::from(raster.black(x, y));
    }
    bits
}

// A raster's sides and rows.
fn numbers(alloc: Global, raster: &Raster) -> Result<Vec<u64>, NoMemory> {
    let sides = [u64::from(raster.width()), u64::from(raster.height())];
    let mut numbers = Vec::from_slice(alloc, &sides)?;
    for y in 0..raster.height() {
        numbers.push(row_of(raster, y))?;
    }
    Ok(numbers)
}

// What the bytes come to.
fn told(alloc: Global, given: &Given) -> Result<(Vec<u64>, Option<RunFault>), NoMemory> {
    let (bytes, dyn_f, black, width, height) = *given;
    if dyn_f > 14 || width > 16384 || height > 16384 {
        return Ok((Vec::new(alloc), None));
    }
    match raster(alloc, bytes, dyn_f, black, width, height) {
        Ok(raster) => Ok((numbers(alloc, &raster)?, None)),
        Err(RunStop::Fault(fault)) => Ok((Vec::new(alloc), Some(fault))),
        Err(RunStop::NoMemory) => Err(NoMemory),
    }
}

#[test]
fn rasters_and_faults(rt: HostRuntime) -> Result<(), Fail> {
    for (row, (given, want)) in RASTERS.iter().enumerate() {
        let (numbers, fault) = told(rt.alloc(), given)?;
        assert_eq!(rt; (numbers.as_slice(), fault), *want, "row {row}");
    }
    Ok(())
}

// The raster of two rows, and the bytes of its bitmap.
fn two_rows(alloc: Global) -> Result<Raster, NoMemory> {
    let upper = vec![in alloc; true, false, true]?;
    let lower = vec![in alloc; false, false, true]?;
    Raster::of(alloc, &[upper, lower])
}

#[test]
fn rasters_of_given_rows(rt: HostRuntime) -> Result<(), Fail> {
    let given = two_rows(rt.alloc())?;
    let numbers = numbers(rt.alloc(), &given)?;
    let none = Raster::of(rt.alloc(), &[])?;
    assert_eq!(rt;
        (
            numbers.as_slice(),
            given.bits().rows(),
            none.width(),
            none.height()
        ),
        (
            [3, 2, 0b101, 0b001].as_slice(),
            [0xa0, 0x20].as_slice(),
            0,
            0
        )
    );
    Ok(())
}
