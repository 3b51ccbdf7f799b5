//! Pages with missing fonts, characters, glyphs and packets, where these are tolerated.

use super::shown::{NO_FONT, NOTHING, Named, Shown, steps, steps_of};
use std::test::Fail;

const DOT: Named = Named("dot", 128, 128);

const GAP: Named = Named("gap", 128, 128);

const NONE: Named = Named("none", 128, 128);

const HOLE: Named = Named("hole", 128, 128);

const FLAT: Named = Named("flat", 128, 128);

const FLATS: Named = Named("flats", 128, 128);

const GAPS: Named = Named("gaps", 128, 128);

const HOLES: Named = Named("holes", 128, 128);

const LOST: Named = Named("lost", 128, 128);

const MISS: Named = Named("miss", 128, 128);

const BAD: Named = Named("bad", 128, 128);

const BOX: Named = Named("box", 128, 128);

const CHARACTER: [i64; 4] = [65, 0, 0, 0];

const OTHER: [i64; 4] = [66, 0, 0, 0];

const WIDTH: [i64; 4] = [8, 0, 0, 0];

// The page's font, its commands, and its steps.
static LACKS: [(&str, &[u8], &[Shown]); 15] = [
    // A font in no file has no width.
    (
        "none",
        &[0xab, 65],
        &[
            Shown(80, "skip", NO_FONT, NOTHING),
            Shown(81, "ask", NONE, NOTHING),
            Shown(81, "missing tfm", NONE, NOTHING),
            Shown(81, "skip", NO_FONT, NOTHING),
            Shown(82, "end", NO_FONT, NOTHING),
        ],
    ),
    // Each character is a lack; the font is looked up once.
    (
        "dot",
        &[0xab, 66, 66, 0x85, 66, 65],
        &[
            Shown(79, "skip", NO_FONT, NOTHING),
            Shown(80, "ask", DOT, NOTHING),
            Shown(80, "no character", DOT, OTHER),
            Shown(80, "skip", NO_FONT, NOTHING),
            Shown(81, "no character", DOT, OTHER),
            Shown(81, "skip", NO_FONT, NOTHING),
            Shown(82, "no character", DOT, OTHER),
            Shown(82, "skip", NO_FONT, NOTHING),
            Shown(84, "set", DOT, [65, 8, 2, 2]),
            Shown(85, "end", NO_FONT, NOTHING),
        ],
    ),
    // A font without a file of glyphs has widths.
    (
        "flat",
        &[0xab, 65, 0x89, 0, 0, 0, 2, 0, 0, 0, 2],
        &[
            Shown(80, "skip", NO_FONT, NOTHING),
            Shown(81, "ask", FLAT, NOTHING),
            Shown(81, "missing pk", FLAT, NOTHING),
            Shown(81, "advance", NO_FONT, WIDTH),
            Shown(82, "put rule", NO_FONT, [2, 2, 0, 0]),
            Shown(91, "end", NO_FONT, NOTHING),
        ],
    ),
    (
        "flat",
        &[0xab, 0x85, 65, 66],
        &[
            Shown(80, "skip", NO_FONT, NOTHING),
            Shown(81, "ask", FLAT, NOTHING),
            Shown(81, "missing pk", FLAT, NOTHING),
            Shown(81, "skip", NO_FONT, NOTHING),
            Shown(83, "missing pk", FLAT, NOTHING),
            Shown(83, "skip", NO_FONT, NOTHING),
            Shown(84, "end", NO_FONT, NOTHING),
        ],
    ),
    (
        "gap",
        &[0xab, 0x85, 65, 65],
        &[
            Shown(79, "skip", NO_FONT, NOTHING),
            Shown(80, "ask", GAP, NOTHING),
            Shown(80, "no glyph", GAP, CHARACTER),
            Shown(80, "skip", NO_FONT, NOTHING),
            Shown(82, "no glyph", GAP, CHARACTER),
            Shown(82, "advance", NO_FONT, WIDTH),
            Shown(83, "end", NO_FONT, NOTHING),
        ],
    ),
    (
        "hole",
        &[0xab, 0x85, 65, 65],
        &[
            Shown(80, "skip", NO_FONT, NOTHING),
            Shown(81, "ask", HOLE, NOTHING),
            Shown(81, "no packet", HOLE, CHARACTER),
            Shown(81, "skip", NO_FONT, NOTHING),
            Shown(83, "no packet", HOLE, CHARACTER),
            Shown(83, "advance", NO_FONT, WIDTH),
            Shown(84, "end", NO_FONT, NOTHING),
        ],
    ),
    // A lack in a packet has the place of the page's own command, and the packet goes on after it.
    (
        "lost",
        &[0xab, 65],
        &[
            Shown(80, "skip", NO_FONT, NOTHING),
            Shown(81, "ask", LOST, NOTHING),
            Shown(81, "enter", NO_FONT, NOTHING),
            Shown(81, "ask", NONE, NOTHING),
            Shown(81, "missing tfm", NONE, NOTHING),
            Shown(81, "skip", NO_FONT, NOTHING),
            Shown(81, "leave", NO_FONT, NOTHING),
            Shown(81, "advance", NO_FONT, WIDTH),
            Shown(82, "end", NO_FONT, NOTHING),
        ],
    ),
    (
        "miss",
        &[0xab, 65],
        &[
            Shown(80, "skip", NO_FONT, NOTHING),
            Shown(81, "ask", MISS, NOTHING),
            Shown(81, "enter", NO_FONT, NOTHING),
            Shown(81, "ask", DOT, NOTHING),
            Shown(81, "no character", DOT, OTHER),
            Shown(81, "skip", NO_FONT, NOTHING),
            Shown(81, "leave", NO_FONT, NOTHING),
            Shown(81, "advance", NO_FONT, WIDTH),
            Shown(82, "end", NO_FONT, NOTHING),
        ],
    ),
    (
        "flats",
        &[0xab, 65],
        &[
            Shown(81, "skip", NO_FONT, NOTHING),
            Shown(82, "ask", FLATS, NOTHING),
            Shown(82, "enter", NO_FONT, NOTHING),
            Shown(82, "ask", FLAT, NOTHING),
            Shown(82, "missing pk", FLAT, NOTHING),
            Shown(82, "skip", NO_FONT, NOTHING),
            Shown(82, "missing pk", FLAT, NOTHING),
            Shown(82, "advance", NO_FONT, WIDTH),
            Shown(82, "rule", NO_FONT, [8, 8, 0, 0]),
            Shown(82, "leave", NO_FONT, NOTHING),
            Shown(82, "advance", NO_FONT, WIDTH),
            Shown(83, "end", NO_FONT, NOTHING),
        ],
    ),
    (
        "gaps",
        &[0xab, 65],
        &[
            Shown(80, "skip", NO_FONT, NOTHING),
            Shown(81, "ask", GAPS, NOTHING),
            Shown(81, "enter", NO_FONT, NOTHING),
            Shown(81, "ask", GAP, NOTHING),
            Shown(81, "no glyph", GAP, CHARACTER),
            Shown(81, "skip", NO_FONT, NOTHING),
            Shown(81, "no glyph", GAP, CHARACTER),
            Shown(81, "advance", NO_FONT, WIDTH),
            Shown(81, "rule", NO_FONT, [8, 8, 0, 0]),
            Shown(81, "leave", NO_FONT, NOTHING),
            Shown(81, "advance", NO_FONT, WIDTH),
            Shown(82, "end", NO_FONT, NOTHING),
        ],
    ),
    (
        "holes",
        &[0xab, 65],
        &[
            Shown(81, "skip", NO_FONT, NOTHING),
            Shown(82, "ask", HOLES, NOTHING),
            Shown(82, "enter", NO_FONT, NOTHING),
            Shown(82, "ask", HOLE, NOTHING),
            Shown(82, "no packet", HOLE, CHARACTER),
            Shown(82, "skip", NO_FONT, NOTHING),
            Shown(82, "no packet", HOLE, CHARACTER),
            Shown(82, "advance", NO_FONT, WIDTH),
            Shown(82, "rule", NO_FONT, [8, 8, 0, 0]),
            Shown(82, "leave", NO_FONT, NOTHING),
            Shown(82, "advance", NO_FONT, WIDTH),
            Shown(83, "end", NO_FONT, NOTHING),
        ],
    ),
    // These are tolerated nowhere.
    (
        "dot",
        &[0xac],
        &[Shown(79, "no font", NO_FONT, [1, 0, 0, 0])],
    ),
    (
        "dot",
        &[65],
        &[Shown(79, "no current font", NO_FONT, NOTHING)],
    ),
    (
        "box",
        &[0xab, 65],
        &[
            Shown(79, "skip", NO_FONT, NOTHING),
            Shown(80, "ask", BOX, NOTHING),
            Shown(80, "enter", NO_FONT, NOTHING),
            Shown(80, "no local fonts", BOX, NOTHING),
        ],
    ),
    (
        "bad",
        &[0xab, 65],
        &[
            Shown(79, "skip", NO_FONT, NOTHING),
            Shown(80, "ask", BAD, NOTHING),
            Shown(80, "another fault", BAD, NOTHING),
        ],
    ),
];

#[test]
fn pages_with_lacks(rt: HostRuntime) -> Result<(), Fail> {
    for (row, (font, page, want)) in LACKS.iter().enumerate() {
        assert_eq!(rt;
            steps_of(rt.alloc(), font, page, true)?.as_slice(),
            *want,
            "row {row}"
        );
    }
    Ok(())
}

#[test]
fn a_bare_font_untolerated(rt: HostRuntime) -> Result<(), Fail> {
    let want: &[Shown] = &[
        Shown(80, "skip", NO_FONT, NOTHING),
        Shown(81, "ask", FLAT, NOTHING),
        Shown(81, "missing pk", FLAT, NOTHING),
    ];
    assert_eq!(rt; steps(rt.alloc(), "flat", &[0xab, 65])?.as_slice(), want);
    Ok(())
}
