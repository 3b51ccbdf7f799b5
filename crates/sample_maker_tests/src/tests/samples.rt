//! The sample.
use outside::FileName;
use page_index::Index;
use sample_maker::{packed_sample, sample};
use std::alloc::Global;
use std::test::Fail;

const ONE_PAGE: &[u8] = &[
    0xf7, 2, 0, 0, 0x04, 0xf6, 0, 0, 0, 3, 0, 0, 0x03, 0xe8, 0, // the preamble
    0xf3, 0, 0, 0, 0, 0, 0, 0, 0, 0x80, 0, 0, 0, 0x80, 0, 3, 0x64, 0x75, 0x6f, // duo
    0xf3, 1, 0, 0, 0, 0, 0, 0, 0, 0x80, 0, 0, 0, 0x80, 0, 3, 0x64, 0x6f, 0x74, // dot
    0xf3, 2, 0, 0, 0, 0, 0, 0, 0, 0x80, 0, 0, 0, 0x80, 0, 3, 0x62, 0x61, 0x72, // bar
    0x8b, 0, 0, 0, 1, 0, 0, 0, 0, 0, 0, 0, 0, 0, 0, 0, 0, 0, 0, 0, 0, 0, 0, 0, 0, 0, 0, 0, 0, 0, 0,
    0, 0, 0, 0, 0, 0, 0, 0, 0, 0, 0xff, 0xff, 0xff, 0xff, // the page's beginning
    0xab, // font 0
    0x8d, 0x41, 0x41, 0x41, 0x41, 0x8e, 0x9e, 0x00, 0x28, // a line
    0x8d, 0x41, 0x41, 0x41, 0x41, 0x8e, 0x9e, 0x00, 0x28, // and another
    0xac, 0x41, 0x41, 0x41, 0x41, 0x41, // font 1 and the last line
    0x8c, // the page's end
    0xf8, 0, 0, 0, 0x48, 0, 0, 0x04, 0xf6, 0, 0, 0, 3, 0, 0, 0x03, 0xe8, 0, 0, 0, 0, 0, 0, 0, 0, 0,
    0, 0, 1, // the postamble
    0xf3, 0, 0, 0, 0, 0, 0, 0, 0, 0x80, 0, 0, 0, 0x80, 0, 3, 0x64, 0x75, 0x6f, // duo
    0xf3, 1, 0, 0, 0, 0, 0, 0, 0, 0x80, 0, 0, 0, 0x80, 0, 3, 0x64, 0x6f, 0x74, // dot
    0xf3, 2, 0, 0, 0, 0, 0, 0, 0, 0x80, 0, 0, 0, 0x80, 0, 3, 0x62, 0x61, 0x72, // bar
    0xf9, 0, 0, 0, 0x8f, 2, 0xdf, 0xdf, 0xdf, 0xdf, 0xdf, // its place, and the filler
];

// The length of the document of a sample of n pages, how many pages a reader finds in it at a
// resolution, and how long the commands of one of them are.
fn read(alloc: Global, n: u32, res: u32, page: usize) -> Result<(usize, usize, usize), Fail> {
    if n < 1 || n > 1000 || res < 1 || res > 4800 {
        return Err(Fail::from("no sample"));
    }
    let made = sample(alloc, n)?;
    let index = Index::read(alloc, &made.document, res)?;
    if page >= index.pages() {
        return Err(Fail::from("no page"));
    }
    let length = index.page(page).bytes.len();
    Ok((made.document.len(), index.pages(), length))
}

// Numbers of pages, resolutions and places of pages. The commands of pages take 25, 34 and 16 bytes
// in turn, with 46 bytes around each, and what stands around them takes 164 bytes and four to seven
// of filler.
static DOCUMENTS: [(u32, u32, usize, (usize, usize, usize)); 6] = [
    (1, 1, 0, (240, 1, 25)),
    (1, 4800, 0, (240, 1, 25)),
    (3, 300, 0, (384, 3, 25)),
    (3, 300, 1, (384, 3, 34)),
    (3, 300, 2, (384, 3, 16)),
    (1000, 300, 0, (71_168, 1000, 25)),
];

#[test]
fn documents_are_read(rt: HostRuntime) -> Result<(), Fail> {
    for (n, res, page, wanted) in DOCUMENTS.iter() {
        let told = read(rt.alloc(), *n, *res, *page)?;
        assert_eq!(rt; told, *wanted, "of {n} at {res}");
    }
    Ok(())
}

// Whether a sample is packed, of how many pages it is, and one of its files, or its document, which
// has no name here. The one page is numbered 1, so it has 1 + 1 mod 3 lines of four characters.
static FILES: [(bool, u32, &[u8], &[u8]); 9] = [
    (false, 1, b"", ONE_PAGE),
    (
        false,
        1,
        b"duo.tfm",
        &[
            0, 14, 0, 2, 0, 65, 0, 65, 0, 2, 0, 1, 0, 1, 0, 1, 0, 0, 0, 0, 0, 0, 0, 0, // counts
            0, 0, 0, 0, 0, 0xa0, 0, 0, // header
            1, 0, 0, 0, // char_info
            0, 0, 0, 0, 0, 2, 0x80, 0, // the widths
            0, 0, 0, 0, 0, 0, 0, 0, 0, 0, 0, 0,
        ],
    ),
    (
        false,
        1,
        b"dot.tfm",
        &[
            0, 14, 0, 2, 0, 65, 0, 65, 0, 2, 0, 1, 0, 1, 0, 1, 0, 0, 0, 0, 0, 0, 0, 0, // counts
            0, 0, 0, 0, 0, 0xa0, 0, 0, // header
            1, 0, 0, 0, // char_info
            0, 0, 0, 0, 0, 1, 0, 0, // the widths
            0, 0, 0, 0, 0, 0, 0, 0, 0, 0, 0, 0,
        ],
    ),
    (
        false,
        1,
        b"bar.tfm",
        &[
            0, 14, 0, 2, 0, 65, 0, 65, 0, 2, 0, 1, 0, 1, 0, 1, 0, 0, 0, 0, 0, 0, 0, 0, // counts
            0, 0, 0, 0, 0, 0xa0, 0, 0, // header
            1, 0, 0, 0, // char_info
            0, 0, 0, 0, 0, 1, 0x80, 0, // the widths
            0, 0, 0, 0, 0, 0, 0, 0, 0, 0, 0, 0,
        ],
    ),
    (
        false,
        1,
        b"duo.vf",
        &[
            0xf7, 0xca, 0, 0, 0, 0, 0, 0, 0xa0, 0, 0, // the preamble
            0xf3, 0, 0, 0, 0, 0, 0, 0x10, 0, 0, 0, 0xf6, 0xae, 0x7d, 0, 3, 0x64, 0x6f, 0x74, // dot
            0xf3, 1, 0, 0, 0, 0, 0, 0x10, 0, 0, 0, 0xf6, 0xae, 0x7d, 0, 3, 0x62, 0x61, 0x72, // bar
            3, 0x41, 2, 0x80, 0, 0x41, 0xac, 0x41, // the packet
            0xf8, 0xf8, 0xf8,
        ],
    ),
    // a glyph of plain bits
    (
        false,
        1,
        b"dot.300pk",
        &[
            0xf7, 0x59, 0, 0, 0xa0, 0, 0, 0, 0, 0, 0, 0, 4, 0x26, 0xae, 0, 4, 0x26, 0xae, // pre
            0xe0, 9, 0x41, 1, 0, 0, 4, 2, 2, 0, 1, 0xf0, 0xf5,
        ],
    ),
    // a glyph of runs
    (
        false,
        1,
        b"bar.300pk",
        &[
            0xf7, 0x59, 0, 0, 0xa0, 0, 0, 0, 0, 0, 0, 0, 4, 0x26, 0xae, 0, 4, 0x26, 0xae, // pre
            0xa8, 0x0b, 0x41, 1, 0x80, 0, 6, 3, 4, 0, 3, 0xe2, 0x11, 0x40, 0xf5, 0xf6, 0xf6,
        ],
    ),
    // packed, one run of four pixels
    (
        true,
        2,
        b"dot.300pk",
        &[
            0xf7, 0x59, 0, 0, 0xa0, 0, 0, 0, 0, 0, 0, 0, 4, 0x26, 0xae, 0, 4, 0x26, 0xae, // pre
            0x48, 9, 0x41, 0, 0, 0, 0, 2, 2, 0, 1, 0x40, 0xf5,
        ],
    ),
    // packed, a bitmap
    (
        true,
        2,
        b"bar.300pk",
        &[
            0xf7, 0x59, 0, 0, 0xa0, 0, 0, 0, 0, 0, 0, 0, 4, 0x26, 0xae, 0, 4, 0x26, 0xae, // pre
            0xe0, 10, 0x41, 0, 0, 0, 0, 3, 4, 0, 3, 0xb6, 0xf0, 0xf5, 0xf6, 0xf6, 0xf6,
        ],
    ),
];

// The file of this name, or the document where it is empty, of a sample of n pages.
fn file(alloc: Global, is_packed: bool, n: u32, name: &[u8]) -> Option<Vec<u8>> {
    if n < 1 || n > 1000 {
        return None;
    }
    let made = if is_packed {
        packed_sample(alloc, n).ok()?
    } else {
        sample(alloc, n).ok()?
    };
    if name.is_empty() {
        return Some(made.document);
    }
    let name = FileName::new(alloc, name).ok()?;
    made.library.copy_of(&name).ok()?
}

#[test]
fn samples_have_these_files(rt: HostRuntime) {
    for (is_packed, n, name, bytes) in FILES.iter() {
        let found = file(rt.alloc(), *is_packed, *n, name);
        assert_eq!(rt; found.as_deref(), Some(*bytes));
    }
}

// What a packed sample has as the plain one has it: the document, and the other files.
static SAME: [&[u8]; 5] = [b"", b"duo.tfm", b"dot.tfm", b"bar.tfm", b"duo.vf"];

#[test]
fn the_packed_sample_is_else_the_same(rt: HostRuntime) {
    for name in SAME.iter() {
        let packed = file(rt.alloc(), true, 2, name);
        assert_eq!(rt; packed, file(rt.alloc(), false, 2, name));
    }
}
