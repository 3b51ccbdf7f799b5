//! Bitmaps whose rows are padded, and rasters set on them.

use super::{Shape, Stretch, bytes_of_dots, raster, span};
use packed_rows::{PackedBitmap, PaddedBitmap};
use std::alloc::{AllocError as NoMemory, Global};
use std::test::Fail;

enum Step {
    Black(Stretch, Stretch),
    Clear,
    Stamp(i16, i16),
}

struct Case {
    size: (u8, u8),
    // What is set at a `Stamp`.
    raster: Shape,
    steps: &'static [Step],
    // Of all rows, one after another.
    bytes: &'static [u8],
    // How many bytes of padding the rows have, zeros all.
    padding: usize,
    count: u64,
    // Whether the rows stand side by side with no padding between them.
    whole: bool,
}

fn made(bitmap: &mut PaddedBitmap, raster: &PackedBitmap, step: &Step) {
    match step {
        Step::Black(columns, rows) => {
            let (columns, rows) = (span(*columns, bitmap.width()), span(*rows, bitmap.height()));
            bitmap.blacken(columns, rows);
        }
        Step::Clear => bitmap.clear(),
        Step::Stamp(x, y) => bitmap.stamp(raster, i64::from(*x), i64::from(*y)),
    }
}

fn drawn(alloc: Global, case: &Case) -> Result<PaddedBitmap, NoMemory> {
    let (width, height) = case.size;
    let raster = raster(alloc, &case.raster)?;
    let mut bitmap = PaddedBitmap::white(alloc, u32::from(width), u32::from(height))?;
    for step in case.steps {
        made(&mut bitmap, &raster, step);
    }
    Ok(bitmap)
}

// The rows, asked for pixel by pixel.
fn pixels(alloc: Global, bitmap: &PaddedBitmap) -> Result<Vec<u8>, NoMemory> {
    let mut pixels = Vec::new(alloc);
    for y in 0..bitmap.height() {
        for x in 0..bitmap.width() {
            pixels.push(bitmap.is_black(x, y))?;
        }
    }
    bytes_of_dots(alloc, bitmap.width(), &pixels)
}

// The rows, and how many bytes of padding are zero.
fn rows(alloc: Global, bitmap: &PaddedBitmap) -> Result<(Vec<u8>, usize), NoMemory> {
    let mut rows = Vec::new(alloc);
    let mut zeros = 0usize;
    for y in 0..bitmap.height() {
        rows.extend_from_slice(bitmap.row(y))?;
        let len = bitmap.row(y).len();
        for byte in bitmap.padded(y).iter().skip(len) {
            zeros = zeros.saturating_add(usize::from(*byte == 0));
        }
    }
    Ok((rows, zeros))
}

// Black at the columns 6 to 9 of row 1.
const BAR: &[Step] = &[Step::Black((6, 10), (1, 2))];

const ALL: Step = Step::Black((0, 70), (0, 2));

const NO_RASTER: Shape = (0, 0, &[]);

// Its upper row is black.
const UPPER: Shape = (10, 2, &[((0, 10), (0, 1))]);

// Its first row is black, and the last column of its last two.
const HOOK: Shape = (10, 6, &[((0, 10), (0, 1)), ((9, 10), (4, 6))]);

// More than two words.
const LONG: Shape = (130, 1, &[((0, 130), (0, 1))]);

static CASES: [Case; 9] = [
    Case {
        size: (10, 2),
        raster: NO_RASTER,
        steps: &[],
        bytes: &[0; 4],
        padding: 12,
        count: 0,
        whole: false,
    },
    Case {
        size: (10, 2),
        raster: NO_RASTER,
        steps: BAR,
        bytes: &[0, 0, 0x03, 0xc0],
        padding: 12,
        count: 4,
        whole: false,
    },
    Case {
        size: (60, 2),
        raster: NO_RASTER,
        steps: &[],
        bytes: &[0; 16],
        padding: 0,
        count: 0,
        whole: true,
    },
    // A cleared bitmap is white.
    Case {
        size: (70, 2),
        raster: NO_RASTER,
        steps: &[ALL, Step::Clear],
        bytes: &[0; 18],
        padding: 14,
        count: 0,
        whole: false,
    },
    Case {
        size: (70, 2),
        raster: NO_RASTER,
        steps: &[ALL, Step::Clear, Step::Black((8, 9), (1, 2))],
        bytes: &[0, 0, 0, 0, 0, 0, 0, 0, 0, 0, 0x80, 0, 0, 0, 0, 0, 0, 0],
        padding: 14,
        count: 1,
        whole: false,
    },
    // A raster is set across bytes.
    Case {
        size: (20, 3),
        raster: UPPER,
        steps: &[
            Step::Stamp(5, 1),
            Step::Stamp(-8, 0),
            Step::Stamp(19, 2),
            Step::Stamp(0, -1),
        ],
        bytes: &[0xc0, 0, 0, 0x07, 0xfe, 0, 0, 0, 0x10],
        padding: 15,
        count: 13,
        whole: false,
    },
    // Narrow rasters are set on wide rows.
    Case {
        size: (80, 5),
        raster: HOOK,
        steps: &[Step::Stamp(15, 0), Step::Stamp(16, -4)],
        bytes: &[
            0, 1, 0xff, 0xc0, 0, 0, 0, 0, 0, 0, 0, 0, 0, 0x40, 0, 0, 0, 0, 0, 0, 0, 0, 0, 0, 0, 0,
            0, 0, 0, 0, 0, 0, 0, 0, 0, 0, 0, 0, 0, 0, 0, 0, 0, 0x80, 0, 0, 0, 0, 0, 0,
        ],
        padding: 30,
        count: 13,
        whole: false,
    },
    // A wide raster is set in two words.
    Case {
        size: (200, 1),
        raster: LONG,
        steps: &[Step::Stamp(63, 0)],
        bytes: &[
            0, 0, 0, 0, 0, 0, 0, 0x01, 0xff, 0xff, 0xff, 0xff, 0xff, 0xff, 0xff, 0xff, 0xff, 0xff,
            0xff, 0xff, 0xff, 0xff, 0xff, 0xff, 0x80,
        ],
        padding: 7,
        count: 130,
        whole: false,
    },
    Case {
        size: (200, 1),
        raster: LONG,
        steps: &[Step::Stamp(-65, 0)],
        bytes: &[
            0xff, 0xff, 0xff, 0xff, 0xff, 0xff, 0xff, 0xff, 0x80, 0, 0, 0, 0, 0, 0, 0, 0, 0, 0, 0,
            0, 0, 0, 0, 0,
        ],
        padding: 7,
        count: 65,
        whole: false,
    },
];

#[test]
fn bitmaps_worked_out_by_hand(rt: HostRuntime) -> Result<(), Fail> {
    for (number, case) in CASES.iter().enumerate() {
        let bitmap = drawn(rt.alloc(), case)?;
        let (bytes, zeros) = rows(rt.alloc(), &bitmap)?;
        let pixels = pixels(rt.alloc(), &bitmap)?;
        let whole = if case.whole { Some(case.bytes) } else { None };
        assert_eq!(rt;
            (
                (bitmap.width(), bitmap.height()),
                (bytes.as_slice(), pixels.as_slice(), zeros),
                (bitmap.count(), bitmap.rows())
            ),
            (
                (u32::from(case.size.0), u32::from(case.size.1)),
                (case.bytes, case.bytes, case.padding),
                (case.count, whole)
            ),
            "case {number}"
        );
    }
    Ok(())
}
