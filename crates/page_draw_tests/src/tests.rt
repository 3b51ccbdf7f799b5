//! Pages worked out by hand, at half a dot for a unit (num 1270, den 3, mag 1000): a table, and one
//! test that goes over it.

mod desks;
mod files;

use desks::told;
use std::test::Fail;

/// What a page came to: `drawn`, or `lacks` with how many it has and the place of the first, or why
/// it stopped, with the number that the fault names and its place; its dots, row after row; how
/// many loads were asked for; a letter for each of the first five calls of its seat, with the first
/// one of the key's name; and how many calls there were.
type Told = (&'static str, i32, usize, u64, usize, [u8; 10], usize);

// The desk without a cache has no calls.
const NONE: [u8; 10] = [b' '; 10];

// Five characters, each four dots on from the one before, the third and fourth at one place. Font 0
// is made current twice.
const FIVE: [u8; 9] = [0xab, 0x41, 0x41, 0xab, 0x85, 0x41, 0x41, 0xac, 0x41];

// The commands of a page, the loads that fail where its desk keeps one font in a cache, `None` for
// a desk without a cache, and what is expected.
static ROWS: [(&'static [u8], Option<&'static [u64]>, Told); 6] = [
    // Each change to a font is followed by a look-up, a change to the font that is current too.
    (&FIVE, None, ("drawn", 0, 0, 0xcccc_cccc, 9, NONE, 0)),
    (
        &FIVE,
        Some(&[]),
        ("drawn", 0, 0, 0xcccc_cccc, 6, *b"cdfdhdcbgb", 5),
    ),
    // A page that breaks off gives its claim up. The fourth load is of bar.tfm.
    (
        &FIVE,
        Some(&[4]),
        ("source failed", 0, 0, 0, 4, *b"cdfdhdcbrb", 5),
    ),
    // A fault has its place: the fonts are `dot`, `gap`, and one that is nowhere defined.
    (&[0xab, 66], None, ("no character", 66, 118, 0, 3, NONE, 0)),
    (&[0xad, 65], None, ("no glyph", 65, 118, 0, 3, NONE, 0)),
    (&[0xb4, 65], None, ("no font", 9, 117, 0, 0, NONE, 0)),
];

#[test]
fn pages_over_both_desks(rt: HostRuntime) -> Result<(), Fail> {
    for (row, (page, cached, expected)) in ROWS.iter().enumerate() {
        let found = told(&rt, rt.alloc(), page, *cached, false)?;
        assert_eq!(rt; found, *expected, "row {row}");
    }
    Ok(())
}

// On a tolerant sheet: the commands of a page, and what is expected over the desk without a cache.
static LACKING: [(&'static [u8], Told); 5] = [
    // A code without a width moves nothing, and one without a glyph moves by its width.
    (&[0xab, 66, 65], ("lacks", 1, 118, 0xc000_c000, 3, NONE, 0)),
    (
        &[0xad, 65, 0xab, 65],
        ("lacks", 1, 118, 0x0c00_0c00, 6, NONE, 0),
    ),
    // Of lacks with one fault the first is told: here are two codes, one of them three times.
    (
        &[0xab, 66, 67, 66, 66, 65],
        ("lacks", 2, 118, 0xc000_c000, 3, NONE, 0),
    ),
    // A page without lacks is drawn as on another sheet, and one that stops has none.
    (&FIVE, ("drawn", 0, 0, 0xcccc_cccc, 9, NONE, 0)),
    (&[0xab, 66, 0xb4, 65], ("no font", 9, 119, 0, 3, NONE, 0)),
];

#[test]
fn pages_that_lack_something(rt: HostRuntime) -> Result<(), Fail> {
    for (row, (page, expected)) in LACKING.iter().enumerate() {
        let found = told(&rt, rt.alloc(), page, None, true)?;
        assert_eq!(rt; found, *expected, "row {row}");
    }
    Ok(())
}
