//! Two jobs, and what they come to. Each font has a TFM file, no VF file and a PK file: three
//! loads. A font that is neither claimed nor busy is a hit, which loads nothing.

use super::outcome::OfJobs;
use crate::tests::document::{BAR, DOT, THIN};

/// How many workers draw, and the commands of each page of the first and of the second document.
pub type Case = (u8, &'static [&'static [u8]], &'static [&'static [u8]]);

// A page with two characters of `bar`.
const BARS: &'static [u8] = &[0xac, 0x41, 0x41];

// A page whose font isn't defined.
const UNDEFINED: &'static [u8] = &[0xae, 0x41];

// A page with a character that its font lacks.
const LACKING: &'static [u8] = &[0xab, 0x42];

// Bitmaps of a page with one character, of 2 by 2 black dots, and of one with two, four dots apart.
const ONE: &'static [u8] = b"P4\n8 2\n\xc0\xc0";

const ONE_TWO: &'static [u8] = b"P4\n8 2\n\xc0\xc0P4\n8 2\n\xcc\xcc";

const TWO_ONE: &'static [u8] = b"P4\n8 2\n\xcc\xccP4\n8 2\n\xc0\xc0";

const ONE_TWO_ONE: &'static [u8] = b"P4\n8 2\n\xc0\xc0P4\n8 2\n\xcc\xccP4\n8 2\n\xc0\xc0";

pub static ROWS: [(Case, OfJobs); 7] = [
    // The second job finds all fonts that the first one loaded.
    (
        (1, &[DOT, BARS], &[DOT, BARS]),
        ((0, ONE_TWO, 6), (0, ONE_TWO, 0), [2, 2, 0], [2, 2, 0, 2, 0]),
    ),
    (
        (2, &[DOT, BARS], &[DOT, BARS]),
        ((0, ONE_TWO, 6), (0, ONE_TWO, 0), [2, 2, 0], [2, 2, 0, 2, 0]),
    ),
    // The second document has another font too.
    (
        (1, &[BARS, THIN], &[DOT, BARS, THIN]),
        (
            (0, TWO_ONE, 6),
            (0, ONE_TWO_ONE, 3),
            [2, 2, 1],
            [2, 3, 0, 3, 0],
        ),
    ),
    (
        (2, &[BARS, THIN], &[DOT, BARS, THIN]),
        (
            (0, TWO_ONE, 6),
            (0, ONE_TWO_ONE, 3),
            [2, 2, 1],
            [2, 3, 0, 3, 0],
        ),
    ),
    // A job whose last page has no bitmap, and a good one after it.
    (
        (1, &[DOT, LACKING], &[BARS, DOT]),
        ((3, ONE, 3), (0, TWO_ONE, 3), [2, 2, 0], [2, 2, 0, 2, 0]),
    ),
    (
        (1, &[DOT, UNDEFINED], &[BARS, DOT]),
        ((3, ONE, 3), (0, TWO_ONE, 3), [2, 2, 0], [1, 2, 0, 2, 0]),
    ),
    (
        (2, &[DOT, UNDEFINED], &[BARS, DOT]),
        ((3, ONE, 3), (0, TWO_ONE, 3), [2, 2, 0], [1, 2, 0, 2, 0]),
    ),
];
