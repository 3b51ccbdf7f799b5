//! Rounds of pages that come back to fonts which they were given, so that looks are noted late.

use super::outcome::OfRound;
use super::rows::{BAR_TFM, Case, DOT, NONE, THIN, THIN_TFM};
use super::source::Plan;

const DOT_BAR_DOT: &'static [u8] = &[0xab, 0x41, 0xac, 0x41, 0xab, 0x41];

const DOT_BAR_TWICE: &'static [u8] = &[0xab, 0x41, 0xac, 0x41, 0xab, 0x41, 0xac, 0x41];

const THIN_PK: &'static [u8] = b"thin.300pk";

pub static LATE_ROWS: [(Case, OfRound); 4] = [
    // Looks at fonts that the page was given are noted with the others, and hit.
    (
        (1, 4, &[DOT_BAR_TWICE], Plan::Sure, &[], false),
        (
            ((1, 0xcc, 8, 'w', 1, 6), NONE, NONE, NONE),
            1,
            [2, 2, 0, 2, 0, 0],
            6,
            0,
            true,
        ),
    ),
    // In a cache of one font each of these looks claims its font again, and has it loaded.
    (
        (1, 1, &[DOT_BAR_TWICE], Plan::Sure, &[], false),
        (
            ((1, 0xcc, 8, 'w', 1, 12), NONE, NONE, NONE),
            1,
            [0, 4, 0, 4, 0, 3],
            12,
            0,
            true,
        ),
    ),
    // The load for a look that is noted late fails, and its page has no bitmap.
    (
        (1, 1, &[DOT_BAR_TWICE, DOT], Plan::FailsAt(7), &[], false),
        (
            ((1, 0, 0, 's', 1, 7), NONE, NONE, NONE),
            1,
            [0, 3, 0, 2, 1, 1],
            7,
            1,
            true,
        ),
    ),
    // A look is noted late as a claim, beside another worker's, in a cache of one font. The load of
    // `bar` is held until that of `thin` began.
    (
        (
            2,
            1,
            &[DOT_BAR_DOT, THIN],
            Plan::Held(&[BAR_TFM], &[THIN_TFM, THIN_PK]),
            &[],
            false,
        ),
        (
            ((1, 0xcc, 8, 'w', 1, 9), (1, 0xc0, 4, 'w', 1, 3), NONE, NONE),
            2,
            [0, 4, 0, 4, 0, 3],
            12,
            0,
            true,
        ),
    ),
];
