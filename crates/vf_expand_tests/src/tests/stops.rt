//! Pages that stop.

use super::shown::{NO_FONT, NOTHING, Named, Shown, steps};
use std::test::Fail;

const DOT: Named = Named("dot", 128, 128);

const GAP: Named = Named("gap", 128, 128);

const NONE: Named = Named("none", 128, 128);

const HOLE: Named = Named("hole", 128, 128);

const BOX: Named = Named("box", 128, 128);

const BARE: Named = Named("bare", 128, 128);

const FAR: Named = Named("far", 128, 128);

const MISS: Named = Named("miss", 128, 128);

const LOST: Named = Named("lost", 128, 128);

const LOOP: Named = Named("loop", 128, 128);

// The page's font, its commands, and its steps.
static STOPS: [(&str, &[u8], &[Shown]); 15] = [
    (
        "dot",
        &[0xab, 65, 0xac, 65],
        &[
            Shown(79, "skip", NO_FONT, NOTHING),
            Shown(80, "ask", DOT, NOTHING),
            Shown(80, "set", DOT, [65, 8, 2, 2]),
            Shown(81, "no font", NO_FONT, [1, 0, 0, 0]),
        ],
    ),
    (
        "dot",
        &[65],
        &[Shown(79, "no current font", NO_FONT, NOTHING)],
    ),
    (
        "dot",
        &[0xab, 66],
        &[
            Shown(79, "skip", NO_FONT, NOTHING),
            Shown(80, "ask", DOT, NOTHING),
            Shown(80, "no character", DOT, [66, 0, 0, 0]),
        ],
    ),
    (
        "dot",
        &[0xab, 0x83, 0xff, 0xff, 0xff, 0xff],
        &[
            Shown(79, "skip", NO_FONT, NOTHING),
            Shown(80, "ask", DOT, NOTHING),
            Shown(80, "no character", DOT, [-1, 0, 0, 0]),
        ],
    ),
    (
        "gap",
        &[0xab, 0x85, 65],
        &[
            Shown(79, "skip", NO_FONT, NOTHING),
            Shown(80, "ask", GAP, NOTHING),
            Shown(80, "no glyph", GAP, [65, 0, 0, 0]),
        ],
    ),
    (
        "hole",
        &[0xab, 65],
        &[
            Shown(80, "skip", NO_FONT, NOTHING),
            Shown(81, "ask", HOLE, NOTHING),
            Shown(81, "no packet", HOLE, [65, 0, 0, 0]),
        ],
    ),
    (
        "none",
        &[0xab, 65],
        &[
            Shown(80, "skip", NO_FONT, NOTHING),
            Shown(81, "ask", NONE, NOTHING),
            Shown(81, "missing tfm", NONE, NOTHING),
        ],
    ),
    // A number is named where the font has local fonts.
    (
        "box",
        &[0xab, 65],
        &[
            Shown(79, "skip", NO_FONT, NOTHING),
            Shown(80, "ask", BOX, NOTHING),
            Shown(80, "enter", NO_FONT, NOTHING),
            Shown(80, "no local fonts", BOX, NOTHING),
        ],
    ),
    (
        "bare",
        &[0xab, 65],
        &[
            Shown(80, "skip", NO_FONT, NOTHING),
            Shown(81, "ask", BARE, NOTHING),
            Shown(81, "enter", NO_FONT, NOTHING),
            Shown(81, "right", NO_FONT, [8, 0, 0, 0]),
            Shown(81, "no local fonts", BARE, NOTHING),
        ],
    ),
    (
        "far",
        &[0xab, 65],
        &[
            Shown(79, "skip", NO_FONT, NOTHING),
            Shown(80, "ask", FAR, NOTHING),
            Shown(80, "enter", NO_FONT, NOTHING),
            Shown(80, "ask", DOT, NOTHING),
            Shown(80, "set", DOT, [65, 8, 2, 2]),
            Shown(80, "no local font", FAR, [5, 0, 0, 0]),
        ],
    ),
    // The place is that of the page's own command.
    (
        "miss",
        &[0xab, 65],
        &[
            Shown(80, "skip", NO_FONT, NOTHING),
            Shown(81, "ask", MISS, NOTHING),
            Shown(81, "enter", NO_FONT, NOTHING),
            Shown(81, "ask", DOT, NOTHING),
            Shown(81, "no character", DOT, [66, 0, 0, 0]),
        ],
    ),
    (
        "lost",
        &[0xab, 65],
        &[
            Shown(80, "skip", NO_FONT, NOTHING),
            Shown(81, "ask", LOST, NOTHING),
            Shown(81, "enter", NO_FONT, NOTHING),
            Shown(81, "ask", NONE, NOTHING),
            Shown(81, "missing tfm", NONE, NOTHING),
        ],
    ),
    // A font that sets itself.
    (
        "loop",
        &[0xab, 65],
        &[
            Shown(80, "skip", NO_FONT, NOTHING),
            Shown(81, "ask", LOOP, NOTHING),
            Shown(81, "enter", NO_FONT, NOTHING),
            Shown(81, "ask", LOOP, NOTHING),
            Shown(81, "enter", NO_FONT, NOTHING),
            Shown(81, "ask", LOOP, NOTHING),
            Shown(81, "enter", NO_FONT, NOTHING),
            Shown(81, "ask", LOOP, NOTHING),
            Shown(81, "enter", NO_FONT, NOTHING),
            Shown(81, "ask", LOOP, NOTHING),
            Shown(81, "enter", NO_FONT, NOTHING),
            Shown(81, "ask", LOOP, NOTHING),
            Shown(81, "enter", NO_FONT, NOTHING),
            Shown(81, "ask", LOOP, NOTHING),
            Shown(81, "enter", NO_FONT, NOTHING),
            Shown(81, "ask", LOOP, NOTHING),
            Shown(81, "enter", NO_FONT, NOTHING),
            Shown(81, "ask", LOOP, NOTHING),
            Shown(81, "enter", NO_FONT, NOTHING),
            Shown(81, "ask", LOOP, NOTHING),
            Shown(81, "enter", NO_FONT, NOTHING),
            Shown(81, "ask", LOOP, NOTHING),
            Shown(81, "depth", LOOP, [65, 0, 0, 0]),
        ],
    ),
    // `hole` has no packet for the character, but that isn't seen ten packets deep.
    (
        "a",
        &[0xab, 65],
        &[
            Shown(77, "skip", NO_FONT, NOTHING),
            Shown(78, "ask", Named("a", 128, 128), NOTHING),
            Shown(78, "enter", NO_FONT, NOTHING),
            Shown(78, "ask", Named("b", 128, 128), NOTHING),
            Shown(78, "enter", NO_FONT, NOTHING),
            Shown(78, "ask", Named("c", 128, 128), NOTHING),
            Shown(78, "enter", NO_FONT, NOTHING),
            Shown(78, "ask", Named("d", 128, 128), NOTHING),
            Shown(78, "enter", NO_FONT, NOTHING),
            Shown(78, "ask", Named("e", 128, 128), NOTHING),
            Shown(78, "enter", NO_FONT, NOTHING),
            Shown(78, "ask", Named("f", 128, 128), NOTHING),
            Shown(78, "enter", NO_FONT, NOTHING),
            Shown(78, "ask", Named("g", 128, 128), NOTHING),
            Shown(78, "enter", NO_FONT, NOTHING),
            Shown(78, "ask", Named("h", 128, 128), NOTHING),
            Shown(78, "enter", NO_FONT, NOTHING),
            Shown(78, "ask", Named("i", 128, 128), NOTHING),
            Shown(78, "enter", NO_FONT, NOTHING),
            Shown(78, "ask", Named("j", 128, 128), NOTHING),
            Shown(78, "enter", NO_FONT, NOTHING),
            Shown(78, "ask", HOLE, NOTHING),
            Shown(78, "depth", HOLE, [65, 0, 0, 0]),
        ],
    ),
    (
        "b",
        &[0xab, 65],
        &[
            Shown(77, "skip", NO_FONT, NOTHING),
            Shown(78, "ask", Named("b", 128, 128), NOTHING),
            Shown(78, "enter", NO_FONT, NOTHING),
            Shown(78, "ask", Named("c", 128, 128), NOTHING),
            Shown(78, "enter", NO_FONT, NOTHING),
            Shown(78, "ask", Named("d", 128, 128), NOTHING),
            Shown(78, "enter", NO_FONT, NOTHING),
            Shown(78, "ask", Named("e", 128, 128), NOTHING),
            Shown(78, "enter", NO_FONT, NOTHING),
            Shown(78, "ask", Named("f", 128, 128), NOTHING),
            Shown(78, "enter", NO_FONT, NOTHING),
            Shown(78, "ask", Named("g", 128, 128), NOTHING),
            Shown(78, "enter", NO_FONT, NOTHING),
            Shown(78, "ask", Named("h", 128, 128), NOTHING),
            Shown(78, "enter", NO_FONT, NOTHING),
            Shown(78, "ask", Named("i", 128, 128), NOTHING),
            Shown(78, "enter", NO_FONT, NOTHING),
            Shown(78, "ask", Named("j", 128, 128), NOTHING),
            Shown(78, "enter", NO_FONT, NOTHING),
            Shown(78, "ask", HOLE, NOTHING),
            Shown(78, "no packet", HOLE, [65, 0, 0, 0]),
        ],
    ),
];

#[test]
fn pages_that_stop(rt: HostRuntime) -> Result<(), Fail> {
    for (row, (font, page, want)) in STOPS.iter().enumerate() {
        assert_eq!(rt;
            steps(rt.alloc(), font, page)?.as_slice(),
            *want,
            "row {row}"
        );
    }
    Ok(())
}
