//! Rounds, and what they come to. Each font has a TFM file, no VF file and a PK file: three loads.

use super::outcome::{OfPage, OfRound};
use super::source::Plan;

/// How many workers draw all pages of a document, and for how many fonts their cache has room; the
/// commands of each page; what becomes of loads; the sides of the black pages that each worker has
/// as paper; and whether chance decides who draws a page and who loads its fonts.
pub type Case = (
    u8,
    u8,
    &'static [&'static [u8]],
    Plan,
    &'static [(u8, u8)],
    bool,
);

// Pages with characters of these fonts.
pub const DOT: &'static [u8] = &[0xab, 0x41];

const BAR: &'static [u8] = &[0xac, 0x41];

pub const THIN: &'static [u8] = &[0xad, 0x41];

const BAR_DOT: &'static [u8] = &[0xac, 0x41, 0xab, 0x41];

const DOT_BAR: &'static [u8] = &[0xab, 0x41, 0xac, 0x41];

// A page with a character that its font lacks.
const LACKING: &'static [u8] = &[0xab, 0x42];

const DOT_TFM: &'static [u8] = b"dot.tfm";

pub const BAR_TFM: &'static [u8] = b"bar.tfm";

pub const THIN_TFM: &'static [u8] = b"thin.tfm";

// Paper of which two pages have the sides of the sheet.
const BLACK: [(u8, u8); 5] = [(8, 2), (2, 8), (8, 3), (9, 2), (8, 2)];

// A page that was not drawn.
pub const NONE: OfPage = (0, 0, 0, '-', 0, 0);

pub static ROWS: [(Case, OfRound); 14] = [
    // Each page is drawn once.
    (
        (4, 4, &[DOT, LACKING, BAR_DOT], Plan::Sure, &[], true),
        (
            (
                (1, 0xc0, 4, 'w', 0, 0),
                (1, 0, 0, 'f', 0, 0),
                (1, 0xcc, 8, 'w', 0, 0),
                NONE,
            ),
            3,
            [2, 2, 0, 2, 0, 0],
            6,
            0,
            true,
        ),
    ),
    // One worker draws all pages in order.
    (
        (1, 4, &[DOT, BAR_DOT, THIN], Plan::Sure, &[], false),
        (
            (
                (1, 0xc0, 4, 'w', 3, 9),
                (1, 0xcc, 8, 'w', 3, 9),
                (1, 0xc0, 4, 'w', 3, 9),
                NONE,
            ),
            3,
            [1, 3, 0, 3, 0, 0],
            9,
            0,
            true,
        ),
    ),
    // A worker stops at a page without a bitmap.
    (
        (1, 4, &[DOT, LACKING, BAR], Plan::Sure, &[], false),
        (
            ((1, 0xc0, 4, 'w', 2, 3), (1, 0, 0, 'f', 2, 3), NONE, NONE),
            2,
            [1, 1, 0, 1, 0, 0],
            3,
            0,
            true,
        ),
    ),
    // A page goes on with a font that left the cache.
    (
        (1, 1, &[DOT_BAR], Plan::Sure, &[], false),
        (
            ((1, 0xcc, 8, 'w', 1, 6), NONE, NONE, NONE),
            1,
            [0, 2, 0, 2, 0, 1],
            6,
            0,
            true,
        ),
    ),
    // Pages are drawn on black paper.
    (
        (1, 4, &[DOT, &[], BAR_DOT, &[]], Plan::Sure, &BLACK, false),
        (
            (
                (1, 0xc0, 4, 'w', 4, 6),
                (1, 0, 0, 'w', 4, 6),
                (1, 0xcc, 8, 'w', 4, 6),
                (1, 0, 0, 'w', 4, 6),
            ),
            4,
            [1, 2, 0, 2, 0, 0],
            6,
            0,
            true,
        ),
    ),
    // A failed load is the last of its worker. The loads 4 to 6 are those of font 1.
    (
        (1, 4, &[DOT, BAR, DOT], Plan::FailsAt(4), &[], false),
        (
            ((1, 0xc0, 4, 'w', 2, 4), (1, 0, 0, 's', 2, 4), NONE, NONE),
            2,
            [0, 2, 0, 1, 1, 0],
            4,
            1,
            true,
        ),
    ),
    (
        (1, 4, &[DOT, BAR, DOT], Plan::FailsAt(5), &[], false),
        (
            ((1, 0xc0, 4, 'w', 2, 5), (1, 0, 0, 's', 2, 5), NONE, NONE),
            2,
            [0, 2, 0, 1, 1, 0],
            5,
            1,
            true,
        ),
    ),
    (
        (1, 4, &[DOT, BAR, DOT], Plan::FailsAt(6), &[], false),
        (
            ((1, 0xc0, 4, 'w', 2, 6), (1, 0, 0, 's', 2, 6), NONE, NONE),
            2,
            [0, 2, 0, 1, 1, 0],
            6,
            1,
            true,
        ),
    ),
    // A failed load stops its own page alone. Of font 1 one to three files are asked for.
    (
        (3, 4, &[DOT, BAR, DOT], Plan::FailsWith(b"bar.t"), &[], true),
        (
            (
                (1, 0xc0, 4, 'w', 0, 0),
                (1, 0, 0, 's', 0, 0),
                (1, 0xc0, 4, 'w', 0, 0),
                NONE,
            ),
            3,
            [1, 2, 0, 1, 1, 0],
            4,
            1,
            true,
        ),
    ),
    (
        (3, 4, &[DOT, BAR, DOT], Plan::FailsWith(b"bar.v"), &[], true),
        (
            (
                (1, 0xc0, 4, 'w', 0, 0),
                (1, 0, 0, 's', 0, 0),
                (1, 0xc0, 4, 'w', 0, 0),
                NONE,
            ),
            3,
            [1, 2, 0, 1, 1, 0],
            5,
            1,
            true,
        ),
    ),
    (
        (3, 4, &[DOT, BAR, DOT], Plan::FailsWith(b"bar.3"), &[], true),
        (
            (
                (1, 0xc0, 4, 'w', 0, 0),
                (1, 0, 0, 's', 0, 0),
                (1, 0xc0, 4, 'w', 0, 0),
                NONE,
            ),
            3,
            [1, 2, 0, 1, 1, 0],
            6,
            1,
            true,
        ),
    ),
    // Two loads meet, each of a font of its own.
    (
        (
            2,
            4,
            &[DOT, BAR],
            Plan::Held(&[DOT_TFM, BAR_TFM], &[DOT_TFM, BAR_TFM]),
            &[],
            false,
        ),
        (
            ((1, 0xc0, 4, 'w', 1, 3), (1, 0xc0, 4, 'w', 1, 3), NONE, NONE),
            2,
            [0, 2, 0, 2, 0, 0],
            6,
            0,
            true,
        ),
    ),
    // A worker loads a font for itself at whose load another one is held.
    (
        (
            2,
            4,
            &[DOT, DOT],
            Plan::Held(&[DOT_TFM], &[DOT_TFM]),
            &[],
            false,
        ),
        (
            ((1, 0xc0, 4, 'w', 1, 3), (1, 0xc0, 4, 'w', 1, 3), NONE, NONE),
            2,
            [0, 1, 1, 1, 0, 0],
            6,
            0,
            true,
        ),
    ),
    // A worker draws two pages while another is held at one, until the last page began.
    (
        (
            2,
            4,
            &[DOT, BAR, THIN],
            Plan::Held(&[DOT_TFM], &[BAR_TFM, THIN_TFM]),
            &[],
            false,
        ),
        (
            (
                (1, 0xc0, 4, 'w', 1, 3),
                (1, 0xc0, 4, 'w', 2, 6),
                (1, 0xc0, 4, 'w', 2, 6),
                NONE,
            ),
            3,
            [0, 3, 0, 3, 0, 0],
            9,
            0,
            true,
        ),
    ),
];
