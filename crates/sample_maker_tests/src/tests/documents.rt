//! Documents.
use pixel_round::Units;
use sample_maker::document;
use std::test::Fail;

const UNITS: Units = Units {
    num: 1270,
    den: 3,
    mag: 1000,
    res: 300,
};

static RULED: [u8; 112] = [
    0xf7, 2, 0, 0, 0x04, 0xf6, 0, 0, 0, 3, 0, 0, 0x03, 0xe8, 0, // the preamble
    0x8b, 0, 0, 0, 1, 0, 0, 0, 0, 0, 0, 0, 0, 0, 0, 0, 0, 0, 0, 0, 0, 0, 0, 0, 0, 0, 0, 0, 0, 0, 0,
    0, 0, 0, 0, 0, 0, 0, 0, 0, 0, 0xff, 0xff, 0xff, 0xff, // the page's beginning
    0x89, 0, 0, 0, 4, 0, 0, 0, 6, // the rule
    0x8c, // its end
    0xf8, 0, 0, 0, 0x0f, 0, 0, 0x04, 0xf6, 0, 0, 0, 3, 0, 0, 0x03, 0xe8, 0, 0, 0, 0, 0, 0, 0, 0, 0,
    0, 0, 1, // the postamble
    0xf9, 0, 0, 0, 0x46, 2, 0xdf, 0xdf, 0xdf, 0xdf, 0xdf, 0xdf, 0xdf,
];

// A page with a put rule of height 4 and width 6.
#[test]
fn a_page_with_a_rule(rt: HostRuntime) -> Result<(), Fail> {
    let alloc = rt.alloc();
    let page = Vec::from_slice(alloc, &[0x89, 0, 0, 0, 4, 0, 0, 0, 6])?;
    let bytes = document(alloc, &UNITS, &[], &[page])?;
    assert_eq!(rt; bytes.as_slice(), RULED.as_slice());
    Ok(())
}

static WITHOUT_PAGES: [u8; 56] = [
    0xf7, 2, 0, 0, 0x04, 0xf6, 0, 0, 0, 3, 0, 0, 0x03, 0xe8, 0, // the preamble
    0xf8, 0xff, 0xff, 0xff, 0xff, 0, 0, 0x04, 0xf6, 0, 0, 0, 3, 0, 0, 0x03, 0xe8, 0, 0, 0, 0, 0, 0,
    0, 0, 0, 0, 0, 0, // the postamble
    0xf9, 0, 0, 0, 0x0f, 2, 0xdf, 0xdf, 0xdf, 0xdf, 0xdf, 0xdf,
];

#[test]
fn a_document_without_pages(rt: HostRuntime) -> Result<(), Fail> {
    let bytes = document(rt.alloc(), &UNITS, &[], &[])?;
    assert_eq!(rt; bytes.as_slice(), WITHOUT_PAGES.as_slice());
    Ok(())
}
