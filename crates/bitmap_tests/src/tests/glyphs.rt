//! Small pages, with bytes worked out by hand: a table, and one test that goes over it.

mod random_places;

use glyph_paint::paint;
use packed_rows::MAX_COORDINATE;
use pk_runs::raster;
use raster_page::Page;
use std::alloc::Global;
use std::test::Fail;

// What is set on a white page, and the bytes of all its rows, one after another.
struct Case<'a> {
    raster: &'a [u8],
    width: u8,
    height: u8,
    page: (u8, u8),
    places: &'a [(i16, i16)],
    rows: &'a [u8],
}

// Rows 101 and 011.
const STEP: [u8; 1] = [0xac];

// Rows 11111111111111111111, 10000000000000000001 and 11001010010111000011.
const WIDE: [u8; 8] = [0xff, 0xff, 0xf8, 0x00, 0x01, 0xca, 0x5c, 0x30];

// One row of 130 black pixels: more than two words.
const LONG: [u8; 17] = [0xff; 17];

// The bytes of all rows, one after another.
fn rows_of(alloc: Global, page: &Page) -> Result<Vec<u8>, Fail> {
    let mut rows = Vec::new(alloc);
    for y in 0..page.height() {
        rows.extend_from_slice(page.row(y))?;
    }
    Ok(rows)
}

fn painted(alloc: Global, case: &Case) -> Result<Vec<u8>, Fail> {
    let (wide, high) = case.page;
    let glyph = raster(
        alloc,
        case.raster,
        14,
        true,
        u32::from(case.width),
        u32::from(case.height),
    )?;
    let mut page = Page::blank(alloc, u32::from(wide.max(1)), u32::from(high.max(1)))?;
    for &(column, row) in case.places {
        paint(&mut page, &glyph, i64::from(column), i64::from(row));
    }
    rows_of(alloc, &page)
}

static CASES: [Case<'static>; 16] = [
    Case {
        raster: &LONG,
        width: 130,
        height: 1,
        page: (200, 1),
        places: &[(63, 0)],
        rows: &[
            0, 0, 0, 0, 0, 0, 0, 0x01, 0xff, 0xff, 0xff, 0xff, 0xff, 0xff, 0xff, 0xff, 0xff, 0xff,
            0xff, 0xff, 0xff, 0xff, 0xff, 0xff, 0x80,
        ],
    },
    Case {
        raster: &LONG,
        width: 130,
        height: 1,
        page: (200, 1),
        places: &[(-65, 0)],
        rows: &[
            0xff, 0xff, 0xff, 0xff, 0xff, 0xff, 0xff, 0xff, 0x80, 0, 0, 0, 0, 0, 0, 0, 0, 0, 0, 0,
            0, 0, 0, 0, 0,
        ],
    },
    Case {
        raster: &LONG,
        width: 130,
        height: 1,
        page: (5, 1),
        places: &[(0, 0)],
        rows: &[0xf8],
    },
    Case {
        raster: &[0xff, 0xff],
        width: 4,
        height: 4,
        page: (8, 4),
        places: &[(-2, -2)],
        rows: &[0xc0, 0xc0, 0, 0],
    },
    Case {
        raster: &STEP,
        width: 3,
        height: 2,
        page: (24, 8),
        places: &[(0, 0), (9, 2), (2, 4), (11, 6)],
        rows: &[
            0xa0, 0, 0, 0x60, 0, 0, 0, 0x50, 0, 0, 0x30, 0, 0x28, 0, 0, 0x18, 0, 0, 0, 0x14, 0, 0,
            0x0c, 0,
        ],
    },
    Case {
        raster: &STEP,
        width: 3,
        height: 2,
        page: (24, 8),
        places: &[(4, 0), (13, 2), (6, 4), (15, 6)],
        rows: &[
            0x0a, 0, 0, 0x06, 0, 0, 0, 0x05, 0, 0, 0x03, 0, 0x02, 0x80, 0, 0x01, 0x80, 0, 0, 0x01,
            0x40, 0, 0, 0xc0,
        ],
    },
    Case {
        raster: &WIDE,
        width: 20,
        height: 3,
        page: (21, 4),
        places: &[(-5, 0)],
        rows: &[0xff, 0xfe, 0, 0, 0x02, 0, 0x4b, 0x86, 0, 0, 0, 0],
    },
    Case {
        raster: &WIDE,
        width: 20,
        height: 3,
        page: (21, 4),
        places: &[(10, 0)],
        rows: &[0, 0x3f, 0xf8, 0, 0x20, 0, 0, 0x32, 0x90, 0, 0, 0],
    },
    Case {
        raster: &WIDE,
        width: 20,
        height: 3,
        page: (21, 4),
        places: &[(0, -2), (1, 3)],
        rows: &[0xca, 0x5c, 0x30, 0, 0, 0, 0, 0, 0, 0x7f, 0xff, 0xf8],
    },
    Case {
        raster: &WIDE,
        width: 20,
        height: 3,
        page: (21, 4),
        places: &[(-5, -1), (-5, 2)],
        rows: &[0, 0x02, 0, 0x4b, 0x86, 0, 0xff, 0xfe, 0, 0, 0x02, 0],
    },
    Case {
        raster: &WIDE,
        width: 20,
        height: 3,
        page: (21, 4),
        places: &[(10, -2), (10, 3)],
        rows: &[0, 0x32, 0x90, 0, 0, 0, 0, 0, 0, 0, 0x3f, 0xf8],
    },
    Case {
        raster: &WIDE,
        width: 20,
        height: 3,
        page: (21, 4),
        places: &[
            (21, 0),
            (-20, 0),
            (0, 4),
            (0, -3),
            (32767, 0),
            (-32767, 0),
            (0, 32767),
            (0, -32767),
            (20, 3),
            (-19, -2),
        ],
        rows: &[0x80, 0, 0, 0, 0, 0, 0, 0, 0, 0, 0, 0x08],
    },
    Case {
        raster: &WIDE,
        width: 20,
        height: 3,
        page: (5, 2),
        places: &[(-4, -1)],
        rows: &[0, 0xa0],
    },
    Case {
        raster: &WIDE,
        width: 20,
        height: 3,
        page: (5, 2),
        places: &[(0, 0)],
        rows: &[0xf8, 0x80],
    },
    Case {
        raster: &[],
        width: 5,
        height: 0,
        page: (5, 2),
        places: &[(0, 0)],
        rows: &[0, 0],
    },
    Case {
        raster: &[],
        width: 0,
        height: 2,
        page: (5, 2),
        places: &[(0, 0)],
        rows: &[0, 0],
    },
];

#[test]
fn pages_worked_out_by_hand(rt: HostRuntime) -> Result<(), Fail> {
    for (number, case) in CASES.iter().enumerate() {
        assert_eq!(rt;
            painted(rt.alloc(), case)?.as_slice(),
            case.rows,
            "case {number}"
        );
    }
    Ok(())
}

// At the farthest places nothing is set, white pixels leave black ones, and what lies beside a page
// isn't written into the padding of its rows.
#[test]
fn far_off_and_over_black(rt: HostRuntime) -> Result<(), Fail> {
    let glyph = raster(rt.alloc(), &WIDE, 14, true, 20, 3)?;
    let mut page = Page::blank(rt.alloc(), 21, 4)?;
    let farthest = MAX_COORDINATE as i64;
    paint(&mut page, &glyph, farthest, 0);
    paint(&mut page, &glyph, -farthest, 0);
    paint(&mut page, &glyph, 0, farthest);
    paint(&mut page, &glyph, 0, -farthest);
    let before = page.count();
    page.rule(0, 0, 21, 4);
    paint(&mut page, &glyph, 3, 1);
    paint(&mut page, &glyph, -3, -1);
    let bar = raster(rt.alloc(), &LONG, 14, true, 130, 1)?;
    let mut narrow = Page::blank(rt.alloc(), 5, 1)?;
    paint(&mut narrow, &bar, 0, 0);
    assert_eq!(rt;
        (before, page.count(), narrow.padded(0)),
        (0, 84, [0xf8, 0, 0, 0, 0, 0, 0, 0].as_slice())
    );
    Ok(())
}
