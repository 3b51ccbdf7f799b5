//! Pages: rules and rasters, and what is cut off.

use super::{Shape, bytes_of_dots, near, raster};
use packed_rows::{MAX_COORDINATE, PackedBitmap};
use raster_page::Page;
use std::alloc::{AllocError as NoMemory, Global};
use std::test::Fail;

enum Step {
    // The column, the row, the width and the height.
    Rule(i64, i64, i64, i64),
    Clear,
    Stamp(i16, i16),
}

struct Case {
    size: (u8, u8),
    steps: &'static [Step],
    // Of all rows, one after another.
    bytes: &'static [u8],
    // How many bytes of padding the rows have, zeros all.
    padding: usize,
    count: u64,
    // Whether the rows stand side by side with no padding between them.
    whole: bool,
}

// Set at each `Stamp`.
const SQUARE: Shape = (4, 4, &[((0, 4), (0, 4))]);

fn made(page: &mut Page, raster: &PackedBitmap, step: &Step) {
    match step {
        Step::Rule(x, y, w, h) => page.rule(near(*x), near(*y), near(*w), near(*h)),
        Step::Clear => page.clear(),
        Step::Stamp(x, y) => page.stamp(raster, i64::from(*x), i64::from(*y)),
    }
}

fn drawn(alloc: Global, size: (u8, u8), steps: &[Step]) -> Result<Page, NoMemory> {
    let (width, height) = size;
    let square = raster(alloc, &SQUARE)?;
    let mut page = Page::blank(alloc, u32::from(width.max(1)), u32::from(height.max(1)))?;
    for step in steps {
        made(&mut page, &square, step);
    }
    Ok(page)
}

// The rows, asked for dot by dot.
fn dots(alloc: Global, page: &Page) -> Result<Vec<u8>, NoMemory> {
    let mut dots = Vec::new(alloc);
    for y in 0..page.height() {
        for x in 0..page.width() {
            dots.push(page.black(x, y))?;
        }
    }
    bytes_of_dots(alloc, page.width(), &dots)
}

// The rows, and how many bytes of padding are zero.
fn rows(alloc: Global, page: &Page) -> Result<(Vec<u8>, usize), NoMemory> {
    let mut rows = Vec::new(alloc);
    let mut zeros = 0usize;
    for y in 0..page.height() {
        rows.extend_from_slice(page.row(y))?;
        let len = page.row(y).len();
        for byte in page.padded(y).iter().skip(len) {
            zeros = zeros.saturating_add(usize::from(*byte == 0));
        }
    }
    Ok((rows, zeros))
}

const FARTHEST: i64 = MAX_COORDINATE as i64;

const BESIDE: &[Step] = &[
    Step::Rule(9, 0, 5, 2),
    Step::Rule(-5, 0, 5, 2),
    Step::Rule(0, 2, 9, 1),
    Step::Rule(0, -3, 9, 3),
    Step::Rule(0, 0, 0, 2),
    Step::Rule(0, 0, 9, 0),
    Step::Rule(5, 1, -3, 1),
];

const FARTHEST_OFF: &[Step] = &[
    Step::Rule(FARTHEST, FARTHEST, FARTHEST, FARTHEST),
    Step::Rule(-FARTHEST, -FARTHEST, FARTHEST, FARTHEST),
];

static CASES: [Case; 12] = [
    Case {
        size: (10, 2),
        steps: &[],
        bytes: &[0; 4],
        padding: 12,
        count: 0,
        whole: false,
    },
    // A cleared page is blank.
    Case {
        size: (10, 2),
        steps: &[Step::Rule(0, 0, 10, 2), Step::Clear],
        bytes: &[0; 4],
        padding: 12,
        count: 0,
        whole: false,
    },
    Case {
        size: (10, 2),
        steps: &[Step::Rule(0, 0, 10, 2), Step::Clear, Step::Rule(3, 1, 6, 1)],
        bytes: &[0, 0, 0x1f, 0x80],
        padding: 12,
        count: 6,
        whole: false,
    },
    // A rule in the middle.
    Case {
        size: (10, 4),
        steps: &[Step::Rule(3, 1, 6, 2)],
        bytes: &[0, 0, 0x1f, 0x80, 0x1f, 0x80, 0, 0],
        padding: 24,
        count: 12,
        whole: false,
    },
    // Rows are padded to whole words.
    Case {
        size: (5, 1),
        steps: &[Step::Rule(0, 0, 130, 1)],
        bytes: &[0xf8],
        padding: 7,
        count: 5,
        whole: false,
    },
    Case {
        size: (57, 2),
        steps: &[Step::Rule(56, 1, 1, 1)],
        bytes: &[0, 0, 0, 0, 0, 0, 0, 0, 0, 0, 0, 0, 0, 0, 0, 0x80],
        padding: 0,
        count: 1,
        whole: true,
    },
    // Rules are cut at each edge.
    Case {
        size: (12, 4),
        steps: &[
            Step::Rule(-2, -1, 3, 2),
            Step::Rule(11, 3, 100, 100),
            Step::Rule(4, 2, 1, 1),
        ],
        bytes: &[0x80, 0, 0, 0, 0x08, 0, 0, 0x10],
        padding: 24,
        count: 3,
        whole: false,
    },
    // Rules beside the page leave it.
    Case {
        size: (9, 2),
        steps: BESIDE,
        bytes: &[0; 4],
        padding: 12,
        count: 0,
        whole: false,
    },
    Case {
        size: (9, 2),
        steps: FARTHEST_OFF,
        bytes: &[0; 4],
        padding: 12,
        count: 0,
        whole: false,
    },
    Case {
        size: (9, 2),
        steps: &[Step::Rule(1 - FARTHEST, 1 - FARTHEST, FARTHEST, FARTHEST)],
        bytes: &[0x80, 0, 0, 0],
        padding: 12,
        count: 1,
        whole: false,
    },
    Case {
        size: (9, 2),
        steps: &[
            Step::Rule(1 - FARTHEST, 1 - FARTHEST, FARTHEST, FARTHEST),
            Step::Rule(0, 1, FARTHEST, FARTHEST),
        ],
        bytes: &[0x80, 0, 0xff, 0x80],
        padding: 12,
        count: 10,
        whole: false,
    },
    // A raster is set beside a rule.
    Case {
        size: (10, 4),
        steps: &[
            Step::Stamp(-2, -2),
            Step::Rule(4, 1, 1, 2),
            Step::Stamp(9, 2),
        ],
        bytes: &[0xc0, 0, 0xc8, 0, 0x08, 0x40, 0, 0x40],
        padding: 24,
        count: 8,
        whole: false,
    },
];

#[test]
fn pages_worked_out_by_hand(rt: HostRuntime) -> Result<(), Fail> {
    for (number, case) in CASES.iter().enumerate() {
        let page = drawn(rt.alloc(), case.size, case.steps)?;
        let (bytes, zeros) = rows(rt.alloc(), &page)?;
        let dots = dots(rt.alloc(), &page)?;
        let whole = if case.whole { Some(case.bytes) } else { None };
        assert_eq!(rt;
            (
                (page.width(), page.height()),
                (bytes.as_slice(), dots.as_slice(), zeros),
                (page.count(), page.rows())
            ),
            (
                (u32::from(case.size.0), u32::from(case.size.1)),
                (case.bytes, case.bytes, case.padding),
                (case.count, whole)
            ),
            "case {number}"
        );
    }
    Ok(())
}

// On a page of 77 by 41 dots, so that words have dots and padding.
static COUNTS: [(&'static [Step], u64); 3] = [
    (&[Step::Rule(63, 0, 2, 41)], 82),
    (&[Step::Rule(63, 0, 2, 41), Step::Rule(0, 40, 77, 1)], 157),
    (
        &[
            Step::Rule(63, 0, 2, 41),
            Step::Rule(0, 40, 77, 1),
            Step::Rule(0, 0, 77, 41),
        ],
        3157,
    ),
];

#[test]
fn dots_are_counted(rt: HostRuntime) -> Result<(), Fail> {
    for (row, (steps, count)) in COUNTS.iter().enumerate() {
        let page = drawn(rt.alloc(), (77, 41), steps)?;
        assert_eq!(rt; page.count(), *count, "row {row}");
    }
    Ok(())
}
