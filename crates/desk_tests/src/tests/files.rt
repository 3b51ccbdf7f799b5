//! Documents of one page, at half a dot for a unit, and the files of their fonts.

use outside::{FileName, Library, SureFonts};
use std::alloc::Global;
use std::sync::Arc;
use std::test::Fail;

// Character 65 alone, 8 DVI units wide at a size of 128.
static TFM: [u8; 56] = [
    0, 14, 0, 2, 0, 65, 0, 65, 0, 2, 0, 1, 0, 1, 0, 1, 0, 0, 0, 0, 0, 0, 0, 0, // counts
    0, 0, 0, 0, 0, 160, 0, 0, // header
    1, 0, 0, 0, // character 65
    0, 0, 0, 0, 0, 1, 0, 0, // widths
    0, 0, 0, 0, 0, 0, 0, 0, 0, 0, 0, 0,
];

// Character 65 alone, 2 by 2 black dots.
static PK: [u8; 32] = [
    0xf7, 0x59, 0, 0, 0xa0, 0, 0, 0, 0, 0, 0, 0, 4, 0x26, 0xae, 0, 4, 0x26, 0xae, // preamble
    0xe0, 9, 65, 1, 0, 0, 4, 2, 2, 0, 1, 0xf0, 0xf5,
];

/// A document whose page has characters of `dot`, of `bar` and of `dot`: fonts 0 and 1, each 128
/// units large by its design.
pub static THREE_CHARACTERS: [u8; 182] = [
    0xf7, 2, 0, 0, 4, 0xf6, 0, 0, 0, 3, 0, 0, 3, 0xe8, 0, // preamble
    0xf3, 0, 0, 0, 0, 0, 0, 0, 0, 128, 0, 0, 0, 128, 0, 3, 0x64, 0x6f, 0x74, // dot
    0xf3, 1, 0, 0, 0, 0, 0, 0, 0, 128, 0, 0, 0, 128, 0, 3, 0x62, 0x61, 0x72, // bar
    0x8b, 0, 0, 0, 1, 0, 0, 0, 0, 0, 0, 0, 0, 0, 0, 0, 0, 0, 0, 0, 0, 0, 0, 0, 0, // beginning
    0, 0, 0, 0, 0, 0, 0, 0, 0, 0, 0, 0, 0, 0, 0, 0, 0xff, 0xff, 0xff, 0xff, //
    0xab, 0x41, 0xac, 0x41, 0xab, 0x41, 0x8c, // page
    0xf8, 0, 0, 0, 53, 0, 0, 4, 0xf6, 0, 0, 0, 3, 0, 0, 3, 0xe8, // postamble
    0, 0, 0, 0, 0, 0, 0, 0, 0, 0, 0, 1, //
    0xf3, 0, 0, 0, 0, 0, 0, 0, 0, 128, 0, 0, 0, 128, 0, 3, 0x64, 0x6f, 0x74, // dot
    0xf3, 1, 0, 0, 0, 0, 0, 0, 0, 128, 0, 0, 0, 128, 0, 3, 0x62, 0x61, 0x72, // bar
    0xf9, 0, 0, 0, 105, 2, 223, 223, 223, 223,
];

/// The same with one character of `dot`.
pub static ONE_CHARACTER: [u8; 178] = [
    0xf7, 2, 0, 0, 4, 0xf6, 0, 0, 0, 3, 0, 0, 3, 0xe8, 0, // preamble
    0xf3, 0, 0, 0, 0, 0, 0, 0, 0, 128, 0, 0, 0, 128, 0, 3, 0x64, 0x6f, 0x74, // dot
    0xf3, 1, 0, 0, 0, 0, 0, 0, 0, 128, 0, 0, 0, 128, 0, 3, 0x62, 0x61, 0x72, // bar
    0x8b, 0, 0, 0, 1, 0, 0, 0, 0, 0, 0, 0, 0, 0, 0, 0, 0, 0, 0, 0, 0, 0, 0, 0, 0, // beginning
    0, 0, 0, 0, 0, 0, 0, 0, 0, 0, 0, 0, 0, 0, 0, 0, 0xff, 0xff, 0xff, 0xff, //
    0xab, 0x41, 0x8c, // page
    0xf8, 0, 0, 0, 53, 0, 0, 4, 0xf6, 0, 0, 0, 3, 0, 0, 3, 0xe8, // postamble
    0, 0, 0, 0, 0, 0, 0, 0, 0, 0, 0, 1, //
    0xf3, 0, 0, 0, 0, 0, 0, 0, 0, 128, 0, 0, 0, 128, 0, 3, 0x64, 0x6f, 0x74, // dot
    0xf3, 1, 0, 0, 0, 0, 0, 0, 0, 128, 0, 0, 0, 128, 0, 3, 0x62, 0x61, 0x72, // bar
    0xf9, 0, 0, 0, 101, 2, 223, 223, 223, 223,
];

// Adds a file.
fn add(alloc: Global, library: &mut Library, name: &str, bytes: &[u8]) -> Result<(), Fail> {
    let name = FileName::new(alloc, name.as_bytes())?;
    library.add(name, Vec::from_slice(alloc, bytes)?)?;
    Ok(())
}

/// `dot` and `bar`, which are alike.
pub fn dot_and_bar(alloc: Global) -> Result<SureFonts, Fail> {
    let mut library = Library::new(alloc);
    add(alloc, &mut library, "dot.tfm", &TFM)?;
    add(alloc, &mut library, "dot.300pk", &PK)?;
    add(alloc, &mut library, "bar.tfm", &TFM)?;
    add(alloc, &mut library, "bar.300pk", &PK)?;
    Ok(SureFonts::new(Arc::new(alloc, library)?))
}
