//! A page's text: whole, in pieces and with a failing output.

use outside::MemOutput;
use pbm_output::{WriteFault, write_page, write_page_gathered};
use raster_page::Page;
use std::alloc::{AllocError as NoMemory, Global};
use std::test::Fail;

// A page's width and height, and the column, the row, the width and the height of a rule on it.
type Drawn = ((u8, u8), (i16, i16, i16, i16));

// How many bytes are taken at once, and the calls that fail.
type Taken = (usize, &'static [u64]);

// What is written by one call or the other, and whether the whole page was.
fn written(
    alloc: Global,
    drawn: Drawn,
    taken: Taken,
    gathered: bool,
) -> Result<(Vec<u8>, bool), NoMemory> {
    let ((width, height), (x, y, w, h)) = drawn;
    let (piece, fails) = taken;
    let mut page = Page::blank(alloc, u32::from(width.max(1)), u32::from(height.max(1)))?;
    page.rule(i64::from(x), i64::from(y), i64::from(w), i64::from(h));
    let mut out = MemOutput::new(alloc, piece.max(1), Vec::from_slice(alloc, fails)?);
    let end = if gathered {
        write_page_gathered(alloc, &mut out, &page)
    } else {
        write_page(&mut out, &page)
    };
    Ok((Vec::from_slice(alloc, out.bytes())?, end != Err(WriteFault)))
}

// The last two dots of the first row are black.
const SMALL: Drawn = ((10, 2), (8, 0, 2, 1));

// 64 dots to a row, so that rows stand side by side.
const WHOLE: Drawn = ((64, 2), (63, 1, 1, 1));

static ROWS: [(Drawn, Taken, (&'static [u8], bool)); 6] = [
    (SMALL, (1, &[]), (b"P4\n10 2\n\x00\xc0\x00\x00", true)),
    (SMALL, (3, &[]), (b"P4\n10 2\n\x00\xc0\x00\x00", true)),
    (SMALL, (1000, &[]), (b"P4\n10 2\n\x00\xc0\x00\x00", true)),
    // A failed write leaves a prefix.
    (SMALL, (1, &[1]), (b"", false)),
    (SMALL, (1, &[10]), (b"P4\n10 2\n\x00", false)),
    (
        WHOLE,
        (1000, &[]),
        (b"P4\n64 2\n\0\0\0\0\0\0\0\0\0\0\0\0\0\0\0\x01", true),
    ),
];

#[test]
fn pages_are_written(rt: HostRuntime) -> Result<(), Fail> {
    for (row, (drawn, taken, want)) in ROWS.iter().enumerate() {
        let (text, whole) = written(rt.alloc(), *drawn, *taken, false)?;
        assert_eq!(rt; (text.as_slice(), whole), *want, "row {row}");
        let (text, whole) = written(rt.alloc(), *drawn, *taken, true)?;
        assert_eq!(rt; (text.as_slice(), whole), *want, "row {row}, gathered");
    }
    Ok(())
}
