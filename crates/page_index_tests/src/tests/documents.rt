//! What an index answers.

use super::{File, ONE_PAGE, bytes_of};
use outside::FontKey;
use page_index::Index;
use std::alloc::Global;
use std::sync::Arc;
use std::test::Fail;

// Font 0, character 65 set and 66 put, font 7 by one byte, character 128 set by one byte, and 65
// again.
const CHARACTERS: [u8; 9] = [0xab, 0x41, 0x85, 0x42, 0xeb, 7, 0x80, 0x80, 0x41];

const RULE: [u8; 9] = [0x89, 0, 0, 0, 4, 0, 0, 0, 6];

// No page. The postamble has font -2, in four bytes: size 129, design size 128, the area "a/", the
// name "dot".
const NO_PAGE: [u8; 79] = [
    0xf7, 2, 0, 0, 0x04, 0xf6, 0, 0, 0, 3, 0, 0, 0x03, 0xe8, 0, // the preamble
    0xf8, 0xff, 0xff, 0xff, 0xff, // the postamble
    0, 0, 0x04, 0xf6, 0, 0, 0, 3, 0, 0, 0x03, 0xe8, 0, 0, 0, 0, 0, 0, 0, 0, 0, 0, 0, // the units
    0, 0x8a, // no pages, nop
    0xf6, 0xff, 0xff, 0xff, 0xfe, 1, 2, 3, 4, 0, 0, 0, 129, 0, 0, 0, 128, 2, 3, 97, 47, 100, 111,
    116, // the font
    0xf9, 0, 0, 0, 15, 2, 0xdf, 0xdf, 0xdf, 0xdf,
];

// A page's place and its bytes.
type Page<'a> = Option<(usize, &'a [u8])>;

// A font's name, its area's length, its size and its design size.
type Font<'a> = Option<(&'a [u8], u8, u32, u32)>;

// A document, and a number: how many pages there are, the first of them, and the number's font.
static DOCUMENTS: [(File, i32, (usize, Page<'static>, Font<'static>)); 4] = [
    ((&ONE_PAGE, 112, 0, &[]), 0, (1, Some((60, &RULE)), None)),
    (
        (&ONE_PAGE, 112, 60, &CHARACTERS),
        0,
        (1, Some((60, &CHARACTERS)), None),
    ),
    ((&NO_PAGE, 79, 0, &[]), 2, (0, None, None)),
    (
        (&NO_PAGE, 79, 0, &[]),
        -2,
        (0, None, Some((b"a/dot", 2, 129, 128))),
    ),
];

fn first_page<'a>(index: &Index<'a>) -> Page<'a> {
    if index.pages() == 0 {
        return None;
    }
    let page = index.page(0);
    Some((page.at, page.bytes))
}

fn fields(key: Option<&Arc<FontKey>>) -> Font<'_> {
    let key = key?;
    Some((key.name.bytes(), key.area, key.size, key.design))
}

#[test]
fn documents(rt: HostRuntime) -> Result<(), Fail> {
    for (row, (file, number, want)) in DOCUMENTS.iter().enumerate() {
        let bytes = bytes_of(rt.alloc(), file)?;
        let index = Index::read(rt.alloc(), &bytes, 300)?;
        let seen = (
            index.pages(),
            first_page(&index),
            fields(index.font(*number)),
        );
        assert_eq!(rt; seen, *want, "row {row}");
    }
    Ok(())
}

// The fractions of a document, its resolution, and how many dots 3 units are.
fn units(alloc: Global, bytes: &[u8]) -> Result<(u32, u32, u32, u32, i64), Fail> {
    let index = Index::read(alloc, bytes, 300)?;
    let units = index.units();
    Ok((
        units.num,
        units.den,
        units.mag,
        units.res,
        index.conv().round(3),
    ))
}

// Half a dot for a unit.
#[test]
fn units_of_a_document(rt: HostRuntime) -> Result<(), Fail> {
    assert_eq!(rt; units(rt.alloc(), &ONE_PAGE)?, (1270, 3, 1000, 300, 2));
    Ok(())
}
