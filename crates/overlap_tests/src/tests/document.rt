//! Documents, the files of their fonts, and the pages that come of them.

use outside::{FileName, Library};
use std::alloc::Global;
use std::sync::Arc;
use std::test::Fail;

/// The commands of a page with a character of the font `dot`.
pub const DOT: &'static [u8] = &[0xab, 0x41];

/// And of `bar`.
pub const BAR: &'static [u8] = &[0xac, 0x41];

/// And of `thin`.
pub const THIN: &'static [u8] = &[0xad, 0x41];

// What each of them comes to on a sheet of 8 by 2 dots.
const PAGE: &'static [u8] = b"P4\n8 2\n\xc0\xc0";

// A TFM file whose only character, 65, is 8 DVI units wide at a size of 128.
const TFM: [u8; 56] = [
    0, 14, 0, 2, 0, 0x41, 0, 0x41, 0, 2, 0, 1, 0, 1, 0, 1, 0, 0, 0, 0, 0, 0, 0, 0, // counts
    0, 0, 0, 0, 0, 0xa0, 0, 0, // header
    1, 0, 0, 0, // character 65
    0, 0, 0, 0, 0, 1, 0, 0, // widths
    0, 0, 0, 0, 0, 0, 0, 0, 0, 0, 0, 0,
];

// A PK file whose character 65 is 2 by 2 black dots.
const PK: [u8; 32] = [
    0xf7, 0x59, 0, 0, 0xa0, 0, 0, 0, 0, 0, 0, 0, 4, 0x26, 0xae, 0, 4, 0x26, 0xae, // preamble
    0xe0, 9, 0x41, 1, 0, 0, 4, 2, 2, 0, 1, 0xf0, 0xf5,
];

// A TFM file and a PK file of each font.
static FILES: [(&'static [u8], &'static [u8]); 6] = [
    (b"dot.tfm", &TFM),
    (b"dot.300pk", &PK),
    (b"bar.tfm", &TFM),
    (b"bar.300pk", &PK),
    (b"thin.tfm", &TFM),
    (b"thin.300pk", &PK),
];

// `dot`, `bar` and `thin`, as fonts 0, 1 and 2, 128 DVI units large.
static FONTS: [u8; 58] = [
    0xf3, 0, 0, 0, 0, 0, 0, 0, 0, 128, 0, 0, 0, 128, 0, 3, 0x64, 0x6f, 0x74, //
    0xf3, 1, 0, 0, 0, 0, 0, 0, 0, 128, 0, 0, 0, 128, 0, 3, 0x62, 0x61, 0x72, //
    0xf3, 2, 0, 0, 0, 0, 0, 0, 0, 128, 0, 0, 0, 128, 0, 4, 0x74, 0x68, 0x69, 0x6e,
];

// The preamble: half a dot for a unit at 300 dots for an inch.
static BEGIN: [u8; 15] = [0xf7, 2, 0, 0, 4, 0xf6, 0, 0, 0, 3, 0, 0, 3, 0xe8, 0];

// The beginning of a page but for where the last one began.
static BOP: [u8; 41] = [
    0x8b, 0, 0, 0, 0, 0, 0, 0, 0, 0, 0, 0, 0, 0, 0, 0, 0, 0, 0, 0, 0, 0, 0, 0, 0, 0, 0, 0, 0, 0, 0,
    0, 0, 0, 0, 0, 0, 0, 0, 0, 0,
];

// The numbers of the preamble, the tallest and the widest page, and the deepest stack.
static SIZES: [u8; 22] = [
    0, 0, 4, 0xf6, 0, 0, 0, 3, 0, 0, 3, 0xe8, 0, 0, 0, 0, 0, 0, 0, 0, 0, 0,
];

static END: [u8; 8] = [2, 223, 223, 223, 223, 223, 223, 223];

fn add(library: &mut Library, alloc: Global, name: &[u8], bytes: &[u8]) -> Result<(), Fail> {
    library.add(FileName::new(alloc, name)?, Vec::from_slice(alloc, bytes)?)?;
    Ok(())
}

/// The files of all fonts.
pub fn library(alloc: Global) -> Result<Arc<Library>, Fail> {
    let mut library = Library::new(alloc);
    for (name, bytes) in FILES.iter() {
        add(&mut library, alloc, name, bytes)?;
    }
    Ok(Arc::new(alloc, library)?)
}

fn add_page(bytes: &mut Vec<u8>, page: &[u8], last: u32) -> Result<(), Fail> {
    bytes.extend_from_slice(&BOP)?;
    bytes.extend_from_slice(&last.to_be_bytes())?;
    bytes.extend_from_slice(page)?;
    bytes.push(0x8c)?;
    Ok(())
}

// Adds pages, and gives where the last one began.
fn add_pages(bytes: &mut Vec<u8>, pages: &[&[u8]]) -> Result<u32, Fail> {
    let mut last = u32::MAX;
    for page in pages {
        let begin = u32::try_from(bytes.len()).unwrap_or(0);
        add_page(bytes, page, last)?;
        last = begin;
    }
    Ok(last)
}

fn add_end(bytes: &mut Vec<u8>, last: u32, pages: u16) -> Result<(), Fail> {
    let post = u32::try_from(bytes.len()).unwrap_or(0);
    bytes.push(0xf8)?;
    bytes.extend_from_slice(&last.to_be_bytes())?;
    bytes.extend_from_slice(&SIZES)?;
    bytes.extend_from_slice(&pages.to_be_bytes())?;
    bytes.extend_from_slice(&FONTS)?;
    bytes.push(0xf9)?;
    bytes.extend_from_slice(&post.to_be_bytes())?;
    bytes.extend_from_slice(&END)?;
    Ok(())
}

/// A document of these pages.
pub fn document(alloc: Global, pages: &[&[u8]]) -> Result<Vec<u8>, Fail> {
    let mut bytes = Vec::from_slice(alloc, &BEGIN)?;
    bytes.extend_from_slice(&FONTS)?;
    let last = add_pages(&mut bytes, pages)?;
    add_end(&mut bytes, last, u16::try_from(pages.len()).unwrap_or(0))?;
    Ok(bytes)
}

/// How many images of such pages these bytes are, or none where they are anything else.
pub fn page_count(bytes: &[u8]) -> usize {
    let mut rest = bytes;
    let mut count = 0usize;
    for _ in 0..bytes.len() {
        let Some(later) = rest.strip_prefix(PAGE) else {
            break;
        };
        rest = later;
        count = count.saturating_add(1);
    }
    if rest.is_empty() { count } else { 0 }
}
