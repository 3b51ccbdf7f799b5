//! Numbers at both ends of each spelling.

use pk_runs::{Raster, RunStop, raster};
use std::alloc::Global;
use std::test::Fail;

// Numbers by a dyn_f, the width and the height, and the columns at which the runs of each row end:
// the first black, the next white, a third black.
//
// With d for dyn_f the largest number of one nybble is d. Two nybbles begin with d + 1, 0, which is
// d + 1, and end with 13, 15, which is (13 - d) * 16 + d. The least long number, 0, 1, 0, is one
// more. Here these four numbers stand one after another. Without numbers of one nybble (d = 0)
// there are three, and without numbers of two nybbles (d = 13) there are two.
static SPELLED: [(u8, &[u8], u32, u32, [u32; 3]); 16] = [
    // 1, 208, 209
    (0, &[0x10, 0xdf, 0x01, 0x00], 418, 1, [1, 209, 418]),
    // 1, 2, 193, 194
    (1, &[0x12, 0x0d, 0xf0, 0x10], 390, 1, [1, 3, 196]),
    // 2, 3, 178, 179
    (2, &[0x23, 0x0d, 0xf0, 0x10], 362, 1, [2, 5, 183]),
    // 3, 4, 163, 164
    (3, &[0x34, 0x0d, 0xf0, 0x10], 334, 1, [3, 7, 170]),
    // 4, 5, 148, 149
    (4, &[0x45, 0x0d, 0xf0, 0x10], 306, 1, [4, 9, 157]),
    // 5, 6, 133, 134
    (5, &[0x56, 0x0d, 0xf0, 0x10], 278, 1, [5, 11, 144]),
    // 6, 7, 118, 119
    (6, &[0x67, 0x0d, 0xf0, 0x10], 250, 1, [6, 13, 131]),
    // 7, 8, 103, 104
    (7, &[0x78, 0x0d, 0xf0, 0x10], 222, 1, [7, 15, 118]),
    // 8, 9, 88, 89
    (8, &[0x89, 0x0d, 0xf0, 0x10], 194, 1, [8, 17, 105]),
    // 9, 10, 73, 74
    (9, &[0x9a, 0x0d, 0xf0, 0x10], 166, 1, [9, 19, 92]),
    // 10, 11, 58, 59
    (10, &[0xab, 0x0d, 0xf0, 0x10], 138, 1, [10, 21, 79]),
    // 11, 12, 43, 44
    (11, &[0xbc, 0x0d, 0xf0, 0x10], 110, 1, [11, 23, 66]),
    // 12, 13, 28, 29
    (12, &[0xcd, 0x0d, 0xf0, 0x10], 82, 1, [12, 25, 53]),
    // 13, 14
    (13, &[0xd0, 0x10, 0x00, 0x00], 27, 1, [13, 27, 27]),
    // 199 copies of a row of 100 black pixels and 100 white ones, and one run of 40000. At dyn_f 10
    // the long number n is spelled by n + 15 - 48 - 10: 156 (9c), 57 (39) and 39957 (9c15).
    (
        10,
        &[0xe0, 0x9c, 0x03, 0x90, 0x39],
        200,
        200,
        [100, 200, 200],
    ),
    (10, &[0x00, 0x09, 0xc1, 0x50], 200, 200, [200, 200, 200]),
];

// The first pixel, by its column and its row, that doesn't have these runs.
fn other_pixel(raster: &Raster, ends: &[u32; 3]) -> Option<(u32, u32)> {
    for y in 0..raster.height() {
        for x in 0..raster.width() {
            let wanted = x < ends[0] || (ends[1] <= x && x < ends[2]);
            if raster.black(x, y) != wanted {
                return Some((x, y));
            }
        }
    }
    None
}

// The sides of a raster that is spelled by these bytes, and its first pixel that doesn't have these
// runs.
fn told(
    alloc: Global,
    dyn_f: u8,
    bytes: &[u8],
    sides: (u32, u32),
    ends: &[u32; 3],
) -> Result<(u32, u32, Option<(u32, u32)>), RunStop> {
    let (width, height) = sides;
    if dyn_f > 13 || width > 16384 || height > 16384 {
        return Ok((0, 0, None));
    }
    let read = raster(alloc, bytes, dyn_f, true, width, height)?;
    Ok((read.width(), read.height(), other_pixel(&read, ends)))
}

#[test]
fn numbers_at_both_ends(rt: HostRuntime) -> Result<(), Fail> {
    for (row, (dyn_f, bytes, width, height, ends)) in SPELLED.iter().enumerate() {
        let seen = told(rt.alloc(), *dyn_f, bytes, (*width, *height), ends)?;
        assert_eq!(rt; seen, (*width, *height, None), "row {row}");
    }
    Ok(())
}
