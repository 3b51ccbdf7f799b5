//! Rasters and what they are packed into, worked out apart from this program, by the rules of
//! PKtype.

use pk_packer::pack;
use pk_runs::{RunStop, raster};
use std::alloc::Global;
use std::test::Fail;

// A raster, as bytes that stand for it in some form, and what is to become of it.
struct Case {
    // The bytes, their `dyn_f`, whether the first run is black, width and height.
    given: (&'static [u8], u8, bool, u32, u32),
    // The `dyn_f`, and whether the first run is black.
    form: (u8, bool),
    bytes: &'static [u8],
    lengths: [u64; 14],
}

static CASES: [Case; 23] = [
    // The plain bitmap has fewer bytes.
    Case {
        given: (&[0xb6, 0xf0], 14, false, 3, 4),
        form: (14, false),
        bytes: &[0xb6, 0xf0],
        lengths: [9, 7, 6, 6, 5, 5, 5, 5, 5, 5, 5, 5, 5, 5],
    },
    // Rows of one colour are one run.
    Case {
        given: (
            &[0xff, 0xff, 0xff, 0xff, 0xff, 0xff, 0xff, 0xff],
            14,
            false,
            8,
            8,
        ),
        form: (0, true),
        bytes: &[0x4f],
        lengths: [2, 2, 2, 2, 2, 2, 2, 2, 2, 2, 3, 3, 3, 3],
    },
    // No rows.
    Case {
        given: (&[], 14, false, 5, 0),
        form: (0, false),
        bytes: &[],
        lengths: [0, 0, 0, 0, 0, 0, 0, 0, 0, 0, 0, 0, 0, 0],
    },
    // No columns.
    Case {
        given: (&[], 14, false, 0, 3),
        form: (0, false),
        bytes: &[],
        lengths: [0, 0, 0, 0, 0, 0, 0, 0, 0, 0, 0, 0, 0, 0],
    },
    // Forty equal rows are one row and a repeat count.
    Case {
        given: (&[0xe4, 0x56, 0x42, 0x80], 1, true, 80, 40),
        form: (0, true),
        bytes: &[0xe3, 0x65, 0x51, 0x90],
        lengths: [7, 7, 7, 7, 7, 7, 7, 7, 7, 7, 7, 7, 8, 8],
    },
    // One row.
    Case {
        given: (&[0x1f, 0xff, 0xfe, 0x00], 14, false, 32, 1),
        form: (9, false),
        bytes: &[0x3a, 0xa9],
        lengths: [6, 6, 6, 5, 5, 5, 5, 5, 5, 4, 4, 4, 4, 5],
    },
    // One column, its rows of one colour each.
    Case {
        given: (&[0x00, 0x00, 0x0f, 0xff, 0xc0], 14, false, 1, 34),
        form: (0, false),
        bytes: &[0x23, 0x1d],
        lengths: [4, 4, 4, 4, 4, 4, 4, 4, 4, 4, 4, 4, 4, 6],
    },
    // As many bytes either way: the runs.
    Case {
        given: (&[0xf0], 14, false, 8, 1),
        form: (4, true),
        bytes: &[0x44],
        lengths: [4, 4, 4, 4, 2, 2, 2, 2, 2, 2, 2, 2, 2, 2],
    },
    // White first.
    Case {
        given: (
            &[0x00, 0x00, 0x00, 0x03, 0xff, 0xff, 0xff, 0xf0],
            14,
            false,
            60,
            1,
        ),
        form: (0, false),
        bytes: &[0x2d, 0x2d],
        lengths: [4, 4, 4, 4, 4, 4, 4, 4, 4, 4, 4, 4, 6, 6],
    },
    // 2 equal rows of two colours.
    Case {
        given: (&[0xff, 0x80, 0x0f, 0xf8, 0x00], 14, false, 20, 2),
        form: (11, true),
        bytes: &[0xf9, 0xb0],
        lengths: [5, 5, 5, 5, 5, 5, 5, 5, 5, 4, 4, 3, 3, 3],
    },
    // 3 equal rows of two colours.
    Case {
        given: (
            &[0xff, 0x80, 0x0f, 0xf8, 0x00, 0xff, 0x80, 0x00],
            14,
            false,
            20,
            3,
        ),
        form: (11, true),
        bytes: &[0xe2, 0x9b],
        lengths: [7, 7, 6, 6, 6, 6, 6, 6, 6, 5, 5, 4, 4, 4],
    },
    // 16 equal rows of two colours.
    Case {
        given: (
            &[
                0xff, 0x80, 0x0f, 0xf8, 0x00, 0xff, 0x80, 0x0f, 0xf8, 0x00, 0xff, 0x80, 0x0f, 0xf8,
                0x00, 0xff, 0x80, 0x0f, 0xf8, 0x00, 0xff, 0x80, 0x0f, 0xf8, 0x00, 0xff, 0x80, 0x0f,
                0xf8, 0x00, 0xff, 0x80, 0x0f, 0xf8, 0x00, 0xff, 0x80, 0x0f, 0xf8, 0x00,
            ],
            14,
            false,
            20,
            16,
        ),
        form: (11, true),
        bytes: &[0xec, 0x39, 0xb0],
        lengths: [7, 7, 7, 7, 7, 7, 7, 7, 7, 6, 6, 5, 5, 6],
    },
    // 17 equal rows of two colours.
    Case {
        given: (
            &[
                0xff, 0x80, 0x0f, 0xf8, 0x00, 0xff, 0x80, 0x0f, 0xf8, 0x00, 0xff, 0x80, 0x0f, 0xf8,
                0x00, 0xff, 0x80, 0x0f, 0xf8, 0x00, 0xff, 0x80, 0x0f, 0xf8, 0x00, 0xff, 0x80, 0x0f,
                0xf8, 0x00, 0xff, 0x80, 0x0f, 0xf8, 0x00, 0xff, 0x80, 0x0f, 0xf8, 0x00, 0xff, 0x80,
                0x00,
            ],
            14,
            false,
            20,
            17,
        ),
        form: (11, true),
        bytes: &[0xec, 0x49, 0xb0],
        lengths: [7, 7, 7, 7, 7, 7, 7, 7, 7, 6, 6, 5, 5, 6],
    },
    // 256 equal rows of two colours.
    Case {
        given: (&[0xe0, 0x4d, 0x27, 0x29], 1, true, 20, 256),
        form: (11, true),
        bytes: &[0xe0, 0xe3, 0x9b],
        lengths: [8, 8, 8, 8, 8, 8, 8, 8, 8, 7, 7, 6, 6, 8],
    },
    // 257 equal rows of two colours.
    Case {
        given: (&[0xe0, 0x4e, 0x27, 0x29], 1, true, 20, 257),
        form: (11, true),
        bytes: &[0xe0, 0xe4, 0x9b],
        lengths: [8, 8, 8, 8, 8, 8, 8, 8, 8, 7, 7, 6, 6, 8],
    },
    // Runs of 1, 1 and 208, 209 columns: one nybble, two, three.
    Case {
        given: (&[0xe2, 0x01, 0x10, 0x1e, 0x01, 0xf0], 1, true, 419, 3),
        form: (2, true),
        bytes: &[0xe2, 0x11, 0x02, 0xd0, 0x2e],
        lengths: [12, 11, 10, 10, 10, 10, 10, 10, 10, 10, 10, 10, 10, 10],
    },
    // Runs of 7, 8 and 103, 104 columns: one nybble, two, three.
    Case {
        given: (&[0xe2, 0x02, 0x52, 0x68, 0x58, 0x60], 1, true, 222, 3),
        form: (2, true),
        bytes: &[0xe2, 0x34, 0x35, 0x94, 0x95],
        lengths: [11, 11, 10, 10, 10, 10, 10, 10, 10, 10, 10, 10, 10, 10],
    },
    // Runs of 13, 14 and 13, 14 columns: one nybble, two, three.
    Case {
        given: (
            &[
                0xff, 0xf8, 0x00, 0x1f, 0xff, 0x00, 0x03, 0xff, 0xe0, 0x00, 0x7f, 0xfc, 0x00, 0x0f,
                0xff, 0x80, 0x01, 0xff, 0xf0, 0x00, 0x00,
            ],
            14,
            false,
            54,
            3,
        ),
        form: (2, true),
        bytes: &[0xe2, 0x3a, 0x3b, 0x3a, 0x3b],
        lengths: [11, 11, 10, 10, 10, 10, 10, 10, 10, 10, 10, 10, 10, 10],
    },
    // Runs at 3 and 5 nybbles: 463, 464 with dyn_f 0.
    Case {
        given: (&[0xf0, 0x01, 0x1d, 0x00, 0x11, 0xe0], 1, true, 927, 2),
        form: (0, true),
        bytes: &[0xf0, 0x01, 0x0e, 0x00, 0x10, 0xf0],
        lengths: [11, 11, 11, 11, 11, 11, 11, 11, 11, 11, 11, 11, 11, 11],
    },
    // A run over many rows at 5 and 7 nybbles.
    Case {
        given: (&[0x00, 0x01, 0xf8, 0x85, 0x00], 1, true, 100, 83),
        form: (0, true),
        bytes: &[0x00, 0x01, 0xf7, 0x94, 0x10],
        lengths: [9, 9, 9, 9, 9, 9, 9, 9, 9, 9, 9, 10, 10, 10],
    },
    // A repeat count stands before the first run that begins in its row.
    Case {
        given: (&[0xc0, 0x41, 0x04, 0x04, 0x10], 14, false, 6, 6),
        form: (7, true),
        bytes: &[0x27, 0xe2, 0x17, 0xf1],
        lengths: [14, 12, 10, 10, 10, 10, 10, 8, 8, 8, 8, 8, 8, 8],
    },
    // Noise.
    Case {
        given: (
            &[0x03, 0x1c, 0xe5, 0x6c, 0x88, 0x7e, 0xb7, 0x52, 0x80],
            14,
            false,
            13,
            5,
        ),
        form: (14, false),
        bytes: &[0x03, 0x1c, 0xe5, 0x6c, 0x88, 0x7e, 0xb7, 0x52, 0x80],
        lengths: [68, 50, 42, 37, 36, 36, 34, 34, 34, 34, 34, 34, 34, 34],
    },
    // A disc.
    Case {
        given: (
            &[
                0x2b, 0x2c, 0x37, 0x2e, 0x35, 0x30, 0x33, 0x32, 0x31, 0x34, 0x2f, 0x36, 0x2d, 0x38,
                0x2b, 0x3a, 0x29, 0x3c, 0x29, 0x3a, 0x2b, 0x38, 0x2d, 0x36, 0x2f, 0x34, 0x31, 0x32,
                0x33, 0x30, 0x35, 0x2e, 0x37, 0x2c, 0x2b,
            ],
            1,
            false,
            40,
            17,
        ),
        form: (11, false),
        bytes: &[
            0xc1, 0xc2, 0xcd, 0xc4, 0xcb, 0xc6, 0xc9, 0xc8, 0xc7, 0xca, 0xc5, 0xcc, 0xc3, 0xce,
            0xc1, 0xd0, 0xbd, 0x2b, 0xd0, 0xc1, 0xce, 0xc3, 0xcc, 0xc5, 0xca, 0xc7, 0xc8, 0xc9,
            0xc6, 0xcb, 0xc4, 0xcd, 0xc2, 0xc1,
        ],
        lengths: [70, 70, 70, 70, 70, 70, 70, 70, 70, 70, 70, 68, 69, 93],
    },
];

// The `dyn_f` that the raster is packed with, whether its first run is black, its bytes, and the
// lengths by each `dyn_f`.
fn packed(
    alloc: Global,
    given: (&[u8], u8, bool, u32, u32),
) -> Result<((u8, bool), Vec<u8>, [u64; 14]), RunStop> {
    let (bytes, dyn_f, black, width, height) = given;
    if dyn_f > 14 || width > 16384 || height > 16384 {
        return Err(RunStop::NoMemory);
    }
    let raster = raster(alloc, bytes, dyn_f, black, width, height)?;
    let packed = pack(alloc, &raster)?;
    let mut lengths = [0; 14];
    for f in 0..14u8 {
        lengths[f as usize] = packed.lengths.at(f);
    }
    Ok(((packed.dyn_f, packed.black), packed.bytes, lengths))
}

#[test]
fn packs_in_the_fewest_bytes(rt: HostRuntime) -> Result<(), Fail> {
    for (number, case) in CASES.iter().enumerate() {
        let (form, bytes, lengths) = packed(rt.alloc(), case.given)?;
        assert_eq!(rt;
            (form, bytes.as_slice(), lengths),
            (case.form, case.bytes, case.lengths),
            "case {number}"
        );
    }
    Ok(())
}
