//! The documents of the tests, and the files of their fonts.

use outside::{FileName, Library, MemFonts};
use std::alloc::Global;
use std::sync::Arc;
use std::test::Fail;

// The code 65 alone, 1/16 of the size wide: 8 units at a size of 128.
const TFM: [u8; 56] = [
    0, 14, 0, 2, 0, 65, 0, 65, 0, 2, 0, 1, 0, 1, 0, 1, 0, 0, 0, 0, 0, 0, 0, 0, 0, 0, 0, 0, 0, 160,
    0, 0, 1, 0, 0, 0, 0, 0, 0, 0, 0, 1, 0, 0, 0, 0, 0, 0, 0, 0, 0, 0, 0, 0, 0, 0,
];

// The code 65 alone, 2 by 2 black dots, of which the lower left one is at the reference point.
const PK: [u8; 32] = [
    0xf7, 0x59, 0, 0, 0xa0, 0, 0, 0, 0, 0, 0, 0, 4, 0x26, 0xae, 0, 4, 0x26, 0xae, // preamble
    0xe0, 9, 65, 1, 0, 0, 4, 2, 2, 0, 1, 0xf0, 0xf5,
];

// No glyph.
const GAP: [u8; 20] = [
    0xf7, 0x59, 0, 0, 0xa0, 0, 0, 0, 0, 0, 0, 0, 4, 0x26, 0xae, 0, 4, 0x26, 0xae, 0xf5,
];

// Fonts `dot` and `bar`, which are alike, and `gap`.
static FILES: [(&'static [u8], &'static [u8]); 6] = [
    (b"dot.tfm", &TFM),
    (b"dot.300pk", &PK),
    (b"bar.tfm", &TFM),
    (b"bar.300pk", &PK),
    (b"gap.tfm", &TFM),
    (b"gap.300pk", &GAP),
];

// A preamble of num 1270, den 3 and mag 1000, the beginning of a page at 15, and fonts 0 to 2 of
// 128 units in 19 bytes each, up to 117.
static BEGIN: [u8; 117] = [
    0xf7, 2, 0, 0, 4, 0xf6, 0, 0, 0, 3, 0, 0, 3, 0xe8, 0, // preamble
    0x8b, 0, 0, 0, 0, 0, 0, 0, 0, 0, 0, 0, 0, 0, 0, 0, 0, 0, 0, 0, 0, 0, 0, 0, 0, 0, 0, 0, 0, //
    0, 0, 0, 0, 0, 0, 0, 0, 0, 0, 0, 0, 0xff, 0xff, 0xff, 0xff, //
    0xf3, 0, 0, 0, 0, 0, 0, 0, 0, 128, 0, 0, 0, 128, 0, 3, 0x64, 0x6f, 0x74, // dot
    0xf3, 1, 0, 0, 0, 0, 0, 0, 0, 128, 0, 0, 0, 128, 0, 3, 0x62, 0x61, 0x72, // bar
    0xf3, 2, 0, 0, 0, 0, 0, 0, 0, 128, 0, 0, 0, 128, 0, 3, 0x67, 0x61, 0x70, // gap
];

// The postamble of one page, which begins at 15.
static POST: [u8; 30] = [
    0xf8, 0, 0, 0, 15, 0, 0, 4, 0xf6, 0, 0, 0, 3, 0, 0, 3, 0xe8, 0, 0, 0, 0, 0, 0, 0, 0, 0, 0, 0,
    1, 0xf9,
];

fn add(library: &mut Library, alloc: Global, name: &[u8], bytes: &[u8]) -> Result<(), Fail> {
    library.add(FileName::new(alloc, name)?, Vec::from_slice(alloc, bytes)?)?;
    Ok(())
}

/// The files of all fonts, of which the loads with these numbers fail.
pub fn fonts(alloc: Global, fails: &[u64]) -> Result<MemFonts, Fail> {
    let mut library = Library::new(alloc);
    for (name, bytes) in FILES.iter() {
        add(&mut library, alloc, name, bytes)?;
    }
    let fails = Vec::from_slice(alloc, fails)?;
    Ok(MemFonts::new(Arc::new(alloc, library)?, fails))
}

/// A document of one page, whose commands begin at 117.
pub fn document(alloc: Global, page: &[u8]) -> Result<Vec<u8>, Fail> {
    let mut bytes = Vec::from_slice(alloc, &BEGIN)?;
    bytes.extend_from_slice(page)?;
    bytes.push(0x8c)?;
    let post = u32::try_from(bytes.len()).unwrap_or(0);
    bytes.extend_from_slice(&POST)?;
    bytes.extend_from_slice(&post.to_be_bytes())?;
    bytes.extend_from_slice(&[2, 223, 223, 223, 223, 223, 223, 223])?;
    Ok(bytes)
}
