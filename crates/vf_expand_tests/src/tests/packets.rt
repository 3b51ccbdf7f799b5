//! Pages to their ends.

use super::shown::{NO_FONT, NOTHING, Named, Shown, steps};
use std::test::Fail;

const DOT: Named = Named("dot", 128, 128);

const BAR: Named = Named("bar", 128, 128);

const THIN: Named = Named("thin", 128, 128);

const DUO: Named = Named("duo", 128, 128);

const TWIN: Named = Named("twin", 128, 128);

const OVER: Named = Named("over", 128, 128);

const BOX: Named = Named("box", 128, 128);

const NEST: Named = Named("nest", 128, 128);

const HOLE: Named = Named("hole", 128, 128);

// The dot at half the size.
const HALF: Named = Named("dot", 64, 128);

// A page without characters.
const PLAIN: [u8; 20] = [
    0x8a, 0xef, 1, 0x21, 0x8f, 1, 0xab, 0x95, 1, 2, // nop, special, right, font 0, w
    0x84, 0, 0, 0, 4, 0, 0, 0, 6, 0xa6, // a rule, z0
];

// The page's font, its commands, and its steps.
static PAGES: [(&str, &[u8], &[Shown]); 9] = [
    ("dot", &[], &[Shown(79, "end", NO_FONT, NOTHING)]),
    (
        "dot",
        &PLAIN,
        &[
            Shown(79, "skip", NO_FONT, NOTHING),
            Shown(80, "skip", NO_FONT, NOTHING),
            Shown(83, "right", NO_FONT, [1, 0, 0, 0]),
            Shown(85, "skip", NO_FONT, NOTHING),
            Shown(86, "w", NO_FONT, [258, 21, 0, 0]),
            Shown(89, "rule", NO_FONT, [4, 6, 0, 0]),
            Shown(98, "z again", NO_FONT, [21, 0, 0, 0]),
            Shown(99, "end", NO_FONT, NOTHING),
        ],
    ),
    // A font is looked up at the first character after the change to it, also where it was current.
    (
        "dot",
        &[0xab, 65, 0xab, 65, 0x85, 65],
        &[
            Shown(79, "skip", NO_FONT, NOTHING),
            Shown(80, "ask", DOT, NOTHING),
            Shown(80, "set", DOT, [65, 8, 2, 2]),
            Shown(81, "skip", NO_FONT, NOTHING),
            Shown(82, "ask", DOT, NOTHING),
            Shown(82, "set", DOT, [65, 8, 2, 2]),
            Shown(83, "put", DOT, [65, 8, 2, 2]),
            Shown(85, "end", NO_FONT, NOTHING),
        ],
    ),
    // The put one is not followed by a motion. The page's font is known after its packet, and the
    // packet's fonts are looked up again in the next one.
    (
        "duo",
        &[0xab, 0x85, 65, 65],
        &[
            Shown(79, "skip", NO_FONT, NOTHING),
            Shown(80, "ask", DUO, NOTHING),
            Shown(80, "enter", NO_FONT, NOTHING),
            Shown(80, "ask", DOT, NOTHING),
            Shown(80, "set", DOT, [65, 8, 2, 2]),
            Shown(80, "skip", NO_FONT, NOTHING),
            Shown(80, "ask", BAR, NOTHING),
            Shown(80, "set", BAR, [65, 12, 3, 4]),
            Shown(80, "leave", NO_FONT, NOTHING),
            Shown(82, "enter", NO_FONT, NOTHING),
            Shown(82, "ask", DOT, NOTHING),
            Shown(82, "set", DOT, [65, 8, 2, 2]),
            Shown(82, "skip", NO_FONT, NOTHING),
            Shown(82, "ask", BAR, NOTHING),
            Shown(82, "set", BAR, [65, 12, 3, 4]),
            Shown(82, "leave", NO_FONT, NOTHING),
            Shown(82, "advance", NO_FONT, [20, 0, 0, 0]),
            Shown(83, "end", NO_FONT, NOTHING),
        ],
    ),
    (
        "twin",
        &[0xab, 65],
        &[
            Shown(80, "skip", NO_FONT, NOTHING),
            Shown(81, "ask", TWIN, NOTHING),
            Shown(81, "enter", NO_FONT, NOTHING),
            Shown(81, "ask", THIN, NOTHING),
            Shown(81, "set", THIN, [65, 3, 1, 1]),
            Shown(81, "set", THIN, [65, 3, 1, 1]),
            Shown(81, "leave", NO_FONT, NOTHING),
            Shown(81, "advance", NO_FONT, [6, 0, 0, 0]),
            Shown(82, "end", NO_FONT, NOTHING),
        ],
    ),
    // A packet sets and puts a virtual character, whose font is known after the first packet.
    (
        "over",
        &[0xab, 65],
        &[
            Shown(80, "skip", NO_FONT, NOTHING),
            Shown(81, "ask", OVER, NOTHING),
            Shown(81, "enter", NO_FONT, NOTHING),
            Shown(81, "ask", DUO, NOTHING),
            Shown(81, "enter", NO_FONT, NOTHING),
            Shown(81, "ask", DOT, NOTHING),
            Shown(81, "set", DOT, [65, 8, 2, 2]),
            Shown(81, "skip", NO_FONT, NOTHING),
            Shown(81, "ask", BAR, NOTHING),
            Shown(81, "set", BAR, [65, 12, 3, 4]),
            Shown(81, "leave", NO_FONT, NOTHING),
            Shown(81, "advance", NO_FONT, [20, 0, 0, 0]),
            Shown(81, "enter", NO_FONT, NOTHING),
            Shown(81, "ask", DOT, NOTHING),
            Shown(81, "set", DOT, [65, 8, 2, 2]),
            Shown(81, "skip", NO_FONT, NOTHING),
            Shown(81, "ask", BAR, NOTHING),
            Shown(81, "set", BAR, [65, 12, 3, 4]),
            Shown(81, "leave", NO_FONT, NOTHING),
            Shown(81, "leave", NO_FONT, NOTHING),
            Shown(81, "advance", NO_FONT, [40, 0, 0, 0]),
            Shown(82, "end", NO_FONT, NOTHING),
        ],
    ),
    (
        "box",
        &[0xab, 66, 0x8f, 2],
        &[
            Shown(79, "skip", NO_FONT, NOTHING),
            Shown(80, "ask", BOX, NOTHING),
            Shown(80, "enter", NO_FONT, NOTHING),
            Shown(80, "rule", NO_FONT, [8, 8, 0, 0]),
            Shown(80, "leave", NO_FONT, NOTHING),
            Shown(80, "advance", NO_FONT, [8, 0, 0, 0]),
            Shown(81, "right", NO_FONT, [2, 21, 0, 0]),
            Shown(83, "end", NO_FONT, NOTHING),
        ],
    ),
    (
        "hole",
        &[0xab, 66],
        &[
            Shown(80, "skip", NO_FONT, NOTHING),
            Shown(81, "ask", HOLE, NOTHING),
            Shown(81, "enter", NO_FONT, NOTHING),
            Shown(81, "leave", NO_FONT, NOTHING),
            Shown(81, "advance", NO_FONT, [8, 0, 0, 0]),
            Shown(82, "end", NO_FONT, NOTHING),
        ],
    ),
    // Dimensions are rounded down. A motion has a sixth of the size of the font that is current
    // where it stands. A pop brings no font back; after the packet the page's font is current.
    (
        "nest",
        &[0xab, 65, 0x8f, 1],
        &[
            Shown(80, "skip", NO_FONT, NOTHING),
            Shown(81, "ask", NEST, NOTHING),
            Shown(81, "enter", NO_FONT, NOTHING),
            Shown(81, "skip", NO_FONT, NOTHING),
            Shown(81, "rule", NO_FONT, [8, 4, 0, 0]),
            Shown(81, "push", NO_FONT, NOTHING),
            Shown(81, "right", NO_FONT, [-1, 21, 0, 0]),
            Shown(81, "push", NO_FONT, NOTHING),
            Shown(81, "w", NO_FONT, [8, 21, 0, 0]),
            Shown(81, "skip", NO_FONT, NOTHING),
            Shown(81, "w again", NO_FONT, [10, 0, 0, 0]),
            Shown(81, "x", NO_FONT, [12, 10, 0, 0]),
            Shown(81, "x again", NO_FONT, [10, 0, 0, 0]),
            Shown(81, "ask", HALF, NOTHING),
            Shown(81, "set", HALF, [65, 4, 2, 2]),
            Shown(81, "down", NO_FONT, [-16, 10, 0, 0]),
            Shown(81, "y", NO_FONT, [4, 10, 0, 0]),
            Shown(81, "y again", NO_FONT, [10, 0, 0, 0]),
            Shown(81, "z", NO_FONT, [2, 10, 0, 0]),
            Shown(81, "z again", NO_FONT, [10, 0, 0, 0]),
            Shown(81, "pop", NO_FONT, NOTHING),
            Shown(81, "w again", NO_FONT, [10, 0, 0, 0]),
            Shown(81, "skip", NO_FONT, NOTHING),
            Shown(81, "put rule", NO_FONT, [-8, 8, 0, 0]),
            Shown(81, "pop", NO_FONT, NOTHING),
            Shown(81, "skip", NO_FONT, NOTHING),
            Shown(81, "ask", DOT, NOTHING),
            Shown(81, "put", DOT, [65, 8, 2, 2]),
            Shown(81, "skip", NO_FONT, NOTHING),
            Shown(81, "leave", NO_FONT, NOTHING),
            Shown(81, "advance", NO_FONT, [8, 0, 0, 0]),
            Shown(82, "right", NO_FONT, [1, 21, 0, 0]),
            Shown(84, "end", NO_FONT, NOTHING),
        ],
    ),
];

#[test]
fn pages_to_their_ends(rt: HostRuntime) -> Result<(), Fail> {
    for (row, (font, page, want)) in PAGES.iter().enumerate() {
        assert_eq!(rt;
            steps(rt.alloc(), font, page)?.as_slice(),
            *want,
            "row {row}"
        );
    }
    Ok(())
}
