//! A document of one page, and the files of its fonts.

use outside::{FileName, Library};
use std::alloc::{AllocError as NoMemory, Global};
use std::sync::Arc;
use std::test::Fail;

// A TFM file whose only character is 65, up to the character's width, and what comes after that.
const TFM: [u8; 40] = [
    0, 14, 0, 2, 0, 65, 0, 65, 0, 2, 0, 1, 0, 1, 0, 1, 0, 0, 0, 0, 0, 0, 0, 0, // counts
    0, 0, 0, 0, 0, 0xa0, 0, 0, // header
    1, 0, 0, 0, // character 65
    0, 0, 0, 0, // the width 0
];

const TFM_END: [u8; 12] = [0; 12];

// A TFM file with the characters 65 and 66, both 1/16 of the size wide.
const TFM_OF_TWO: [u8; 64] = [
    0, 16, 0, 2, 0, 65, 0, 66, 0, 3, 0, 1, 0, 1, 0, 1, 0, 0, 0, 0, 0, 0, 0, 0, // counts
    0, 0, 0, 0, 0, 0xa0, 0, 0, // header
    1, 0, 0, 0, 2, 0, 0, 0, // characters 65 and 66
    0, 0, 0, 0, 0, 1, 0, 0, 0, 1, 0, 0, // widths
    0, 0, 0, 0, 0, 0, 0, 0, 0, 0, 0, 0,
];

const PK: [u8; 19] = [
    0xf7, 0x59, 0, 0, 0xa0, 0, 0, 0, 0, 0, 0, 0, 4, 0x26, 0xae, 0, 4, 0x26, 0xae,
];

// Character 65, 2 by 2 black dots.
const DOT: [u8; 13] = [0xe0, 9, 65, 1, 0, 0, 4, 2, 2, 0, 1, 0xf0, 0xf5];

// Character 65, 3 columns and 4 rows: 101, 101, 101, 111.
const BAR: [u8; 16] = [
    0xa8, 11, 65, 1, 0x80, 0, 6, 3, 4, 0, 3, 0xe2, 0x11, 0x40, 0xf5, 0xf6,
];

// Character 65, one black dot.
const THIN: [u8; 13] = [0xe0, 9, 65, 0, 0x60, 0, 2, 1, 1, 0, 0, 0x80, 0xf5];

const VF: [u8; 11] = [0xf7, 0xca, 0, 0, 0, 0, 0, 0, 0xa0, 0, 0];

// A VF file with one local font at the font's own size, up to the length of that font's name.
const OVER: [u8; 26] = [
    0xf7, 0xca, 0, 0, 0, 0, 0, 0, 0xa0, 0, 0, //
    0xf3, 0, 0, 0, 0, 0, 0, 16, 0, 0, 0, 0xf6, 0xae, 0x7d, 0,
];

// Local fonts `dot` and `bar`; 65 is 65 of both.
const DUO: [u8; 49] = [
    0xf3, 0, 0, 0, 0, 0, 0, 16, 0, 0, 0, 0xf6, 0xae, 0x7d, 0, 3, 0x64, 0x6f, 0x74, //
    0xf3, 1, 0, 0, 0, 0, 0, 16, 0, 0, 0, 0xf6, 0xae, 0x7d, 0, 3, 0x62, 0x61, 0x72, //
    3, 65, 2, 0x80, 0, 65, 0xac, 65, 0xf8, 0xf8, 0xf8,
];

// Without local fonts: 65 is 65, and 66 a rule.
const BOX: [u8; 21] = [
    1, 65, 1, 0, 0, 65, //
    9, 66, 1, 0, 0, 0x84, 0, 1, 0, 0, 0, 1, 0, 0, 0xf8,
];

// Without local fonts: 65 moves, and changes to local font 0.
const BARE: [u8; 11] = [5, 65, 1, 0, 0, 0x91, 1, 0, 0, 0xab, 0xf8];

// Two sizes of the local font `dot`, the second one half as large.
const NEST: [u8; 104] = [
    0xf3, 0, 0, 0, 0, 0, 0, 16, 0, 0, 0, 0xf6, 0xae, 0x7d, 0, 3, 0x64, 0x6f, 0x74, //
    0xf3, 1, 0, 0, 0, 0, 0, 8, 0, 0, 0, 0xf6, 0xae, 0x7d, 0, 3, 0x64, 0x6f, 0x74, //
    60, 65, 1, 0, 0, // the packet of 65
    0xef, 2, 0x68, 0x69, // a special
    0x84, 0, 1, 0, 0, 0, 0, 0x80, 0, // a rule
    0x8d, 0x8f, 0xff, // push, right
    0x8d, 0x96, 1, 0, 0, // push, w
    0xac, 0x93, // the second font, w0
    0x9b, 1, 0x80, 0, 0x98, // x, x0
    65, 0x9f, 0xfe, 0, 0, // a character, down
    0xa4, 0, 0x80, 0, 0xa1, // y, y0
    0xa9, 0, 0x40, 0, 0xa6, // z, z0
    0x8e, 0x93, 0xab, // pop, w0, the first font
    0x89, 0xff, 0xff, 0, 0, 0, 1, 0, 0, // a rule that is put
    0x8e, 0x8a, 0x85, 65, 0xac, // pop, nop, a character that is put, the second font
    0xf8,
];

// Nothing.
const NO: [u8; 0] = [];

// A width of 1/16 of the size.
const WIDE: [u8; 4] = [0, 1, 0, 0];

// The packet of 65, 1/16 of the size wide, which puts 65, sets 65 and a rule of 1/16 by 1/16 of the
// size; and the end of the file.
const RULED: [u8; 18] = [
    12, 65, 1, 0, 0, 0x85, 65, 65, 0x84, 0, 1, 0, 0, 0, 1, 0, 0, 0xf8,
];

// The packet of 65, 1/16 of the size wide, which sets 65, and the end of the file.
const SET: [u8; 7] = [1, 65, 1, 0, 0, 65, 0xf8];

// The files of all fonts, in three parts.
static FILES: [(&str, [&'static [u8]; 3]); 59] = [
    ("dot.tfm", [&TFM, &WIDE, &TFM_END]),
    ("bar.tfm", [&TFM, &[0, 1, 0x80, 0], &TFM_END]),
    ("thin.tfm", [&TFM, &[0, 0, 0x60, 0], &TFM_END]),
    ("gap.tfm", [&TFM, &WIDE, &TFM_END]),
    ("duo.tfm", [&TFM, &[0, 2, 0x80, 0], &TFM_END]),
    ("twin.tfm", [&TFM, &[0, 0, 0xc0, 0], &TFM_END]),
    ("over.tfm", [&TFM, &[0, 5, 0, 0], &TFM_END]),
    ("loop.tfm", [&TFM, &WIDE, &TFM_END]),
    ("bare.tfm", [&TFM, &WIDE, &TFM_END]),
    ("nest.tfm", [&TFM, &WIDE, &TFM_END]),
    ("far.tfm", [&TFM, &WIDE, &TFM_END]),
    ("miss.tfm", [&TFM, &WIDE, &TFM_END]),
    ("lost.tfm", [&TFM, &WIDE, &TFM_END]),
    ("box.tfm", [&TFM_OF_TWO, &NO, &NO]),
    ("dot.300pk", [&PK, &DOT, &NO]),
    ("dot.150pk", [&PK, &DOT, &NO]),
    ("bar.300pk", [&PK, &BAR, &NO]),
    ("thin.300pk", [&PK, &THIN, &NO]),
    ("gap.300pk", [&PK, &[0xf5], &NO]),
    ("duo.vf", [&VF, &DUO, &NO]),
    ("box.vf", [&VF, &BOX, &NO]),
    ("bare.vf", [&VF, &BARE, &NO]),
    ("nest.vf", [&VF, &NEST, &NO]),
    // Over one local font: its name after the name's length, the packet of 65, and the end.
    (
        "twin.vf",
        [&OVER, b"\x04thin", &[2, 65, 1, 0, 0, 65, 65, 0xf8]],
    ),
    (
        "over.vf",
        [&OVER, b"\x03duo", &[3, 65, 1, 0, 0, 65, 0x85, 65, 0xf8]],
    ),
    ("loop.vf", [&OVER, b"\x04loop", &SET]),
    // A change to local font 5, a character that `dot` hasn't, and a font without files.
    (
        "far.vf",
        [&OVER, b"\x03dot", &[3, 65, 1, 0, 0, 65, 0xb0, 65, 0xf8]],
    ),
    (
        "miss.vf",
        [&OVER, b"\x03dot", &[2, 65, 1, 0, 0, 0x85, 66, 0xf8]],
    ),
    ("lost.vf", [&OVER, b"\x04none", &SET]),
    // A chain: in each of these fonts 65 is that of the next one.
    ("a.tfm", [&TFM, &WIDE, &TFM_END]),
    ("a.vf", [&OVER, b"\x01b", &SET]),
    ("b.tfm", [&TFM, &WIDE, &TFM_END]),
    ("b.vf", [&OVER, b"\x01c", &SET]),
    ("c.tfm", [&TFM, &WIDE, &TFM_END]),
    ("c.vf", [&OVER, b"\x01d", &SET]),
    ("d.tfm", [&TFM, &WIDE, &TFM_END]),
    ("d.vf", [&OVER, b"\x01e", &SET]),
    ("e.tfm", [&TFM, &WIDE, &TFM_END]),
    ("e.vf", [&OVER, b"\x01f", &SET]),
    ("f.tfm", [&TFM, &WIDE, &TFM_END]),
    ("f.vf", [&OVER, b"\x01g", &SET]),
    ("g.tfm", [&TFM, &WIDE, &TFM_END]),
    ("g.vf", [&OVER, b"\x01h", &SET]),
    ("h.tfm", [&TFM, &WIDE, &TFM_END]),
    ("h.vf", [&OVER, b"\x01i", &SET]),
    ("i.tfm", [&TFM, &WIDE, &TFM_END]),
    ("i.vf", [&OVER, b"\x01j", &SET]),
    ("j.tfm", [&TFM, &WIDE, &TFM_END]),
    ("j.vf", [&OVER, b"\x04hole", &SET]),
    // The last of the chain has a packet of 66 alone.
    ("hole.tfm", [&TFM_OF_TWO, &NO, &NO]),
    ("hole.vf", [&VF, &[0, 66, 1, 0, 0], &[0xf8]]),
    // A font without a file of glyphs.
    ("flat.tfm", [&TFM, &WIDE, &TFM_END]),
    // In these fonts 65 is 65 of the local font put and set, and a rule.
    ("flats.tfm", [&TFM, &WIDE, &TFM_END]),
    ("flats.vf", [&OVER, b"\x04flat", &RULED]),
    ("gaps.tfm", [&TFM, &WIDE, &TFM_END]),
    ("gaps.vf", [&OVER, b"\x03gap", &RULED]),
    ("holes.tfm", [&TFM, &WIDE, &TFM_END]),
    ("holes.vf", [&OVER, b"\x04hole", &RULED]),
    // A TFM file that is cut off.
    ("bad.tfm", [&[0], &NO, &NO]),
];

// These bytes, one part after another.
fn joined(alloc: Global, parts: &[&[u8]]) -> Result<Vec<u8>, NoMemory> {
    let mut bytes = Vec::new(alloc);
    for part in parts {
        bytes.extend_from_slice(part)?;
    }
    Ok(bytes)
}

/// The files of all fonts.
pub fn library(alloc: Global) -> Result<Arc<Library>, Fail> {
    let mut library = Library::new(alloc);
    for (name, parts) in FILES.iter() {
        library.add(
            FileName::new(alloc, name.as_bytes())?,
            joined(alloc, parts)?,
        )?;
    }
    Ok(Arc::new(alloc, library)?)
}

// The preamble with an empty text: num 1270, den 3 and mag 1000, half a dot for a unit.
const PRE: [u8; 15] = [0xf7, 2, 0, 0, 4, 0xf6, 0, 0, 0, 3, 0, 0, 3, 0xe8, 0];

// Font 0 at a size and a design size of 128, up to the length of its name.
const DEFINE: [u8; 15] = [0xf3, 0, 0, 0, 0, 0, 0, 0, 0, 128, 0, 0, 0, 128, 0];

// A page's beginning.
const BOP: [u8; 45] = [
    0x8b, 0, 0, 0, 0, 0, 0, 0, 0, 0, 0, 0, 0, 0, 0, 0, 0, 0, 0, 0, 0, 0, 0, 0, 0, 0, 0, 0, 0, 0, 0,
    0, 0, 0, 0, 0, 0, 0, 0, 0, 0, 0xff, 0xff, 0xff, 0xff,
];

// What stands in the postamble after the page's place: the fractions of the preamble, the tallest
// and the widest page, the deepest stack, and one page.
const POST: [u8; 24] = [
    0, 0, 4, 0xf6, 0, 0, 0, 3, 0, 0, 3, 0xe8, 0, 0, 0, 0, 0, 0, 0, 0, 0, 0, 0, 1,
];

/// A document of one page that has font 0 at a size and a design size of 128. The page's first
/// command stands at 76 and as many bytes more as the name has.
pub fn document(alloc: Global, font: &str, page: &[u8]) -> Result<Vec<u8>, NoMemory> {
    let name = font.as_bytes();
    let length = [u8::try_from(name.len()).unwrap_or(0)];
    let bop = u32::from(length[0]) + 31;
    let post = u32::try_from(page.len())
        .unwrap_or(0)
        .saturating_add(bop + 46);
    let (bop, post) = (bop.to_be_bytes(), post.to_be_bytes());
    let end: [u8; 8] = [2, 223, 223, 223, 223, 223, 223, 223];
    joined(
        alloc,
        &[
            &PRE,
            &DEFINE,
            &length,
            name,
            &BOP,
            page,
            &[0x8c, 0xf8],
            &bop,
            &POST,
            &DEFINE,
            &length,
            name,
            &[0xf9],
            &post,
            &end,
        ],
    )
}
