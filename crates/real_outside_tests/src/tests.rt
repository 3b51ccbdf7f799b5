//! The program over streams in memory.

use outside::FileName;
use real_outside::draw_streams;
use real_streams::Opener;
use std::alloc::{AllocError as NoMemory, Global};
use std::io::{self, ErrorKind};
use std::str;
use std::sync::Wait;
use std::thread::Threads;

// No font file.
#[derive(Clone, Copy)]
struct NoFiles;

impl Opener for NoFiles {
    type File = &'static [u8];

    fn open(&self, _name: &FileName) -> io::Result<&'static [u8]> {
        Err(ErrorKind::NotFound.into())
    }
}

// A document of one page, on which nothing is set.
static DOCUMENT: [u8; 100] = [
    // Its preamble: the format 2, 25400000 / 473628672 units, the magnification 1000, no comment.
    247, 2, 1, 131, 146, 192, 28, 59, 0, 0, 0, 0, 3, 232, 0,
    // At 15 page 1 begins, with ten counts, and no page before it.
    139, 0, 0, 0, 1, 0, 0, 0, 0, 0, 0, 0, 0, 0, 0, 0, 0, 0, 0, 0, 0, 0, 0, 0, 0, 0, 0, 0, 0, 0, 0,
    0, 0, 0, 0, 0, 0, 0, 0, 0, 0, 255, 255, 255, 255,
    // At 60 it ends.
    140,
    // At 61 the postamble: the last page is at 15, units, magnification, the height and the width
    // of the largest page, no stack, one page.
    248, 0, 0, 0, 15, 1, 131, 146, 192, 28, 59, 0, 0, 0, 0, 3, 232, 0, 0, 0, 0, 0, 0, 0, 0, 0, 0,
    0, 1,
    // It is at 61, and the end.
    249, 0, 0, 0, 61, 2, 223, 223, 223, 223,
];

fn words_of(alloc: Global, words: &[&str]) -> Result<Vec<String>, NoMemory> {
    let mut list = Vec::new(alloc);
    for word in words {
        list.push(String::from_str(alloc, *word)?)?;
    }
    Ok(list)
}

// What came of the document.
#[derive(Drop)]
struct Came {
    status: u8,
    // The bytes that weren't read.
    left: usize,
    out: Vec<u8>,
    notes: Vec<u8>,
}

// Each writer holds an `=` before.
fn drawn<R: Threads + Wait + Sync>(
    rt: &R,
    alloc: Global,
    words: &[&str],
) -> Result<Came, NoMemory> {
    let words = words_of(alloc, words)?;
    let out = Vec::from_slice(alloc, b"=")?;
    let notes = Vec::from_slice(alloc, b"=")?;
    let outcome = draw_streams(rt, alloc, &words, NoFiles, DOCUMENT.as_slice(), out, notes);
    Ok(Came {
        status: outcome.status,
        left: outcome.input.into_reader().len(),
        out: outcome.out.writer,
        notes: outcome.notes.writer,
    })
}

#[test]
fn an_empty_page_is_white(rt: HostRuntime) {
    match drawn(&rt, rt.alloc(), &["--width=9", "--height=2"]) {
        Ok(came) => {
            assert_eq!(&rt; (came.status, came.left), (0, 0));
            assert_eq!(&rt; str::from_utf8(&came.out), Ok("=P4\n9 2\n\0\0\0\0"));
            assert_eq!(&rt; str::from_utf8(&came.notes), Ok("="));
        }
        Err(_) => assert!(&rt; false, "no memory"),
    }
}

#[test]
fn nothing_is_read_where_the_words_are_no_line(rt: HostRuntime) {
    match drawn(&rt, rt.alloc(), &["--width"]) {
        Ok(came) => {
            assert_eq!(&rt; (came.status, came.left), (1, 100));
            assert_eq!(&rt; str::from_utf8(&came.out), Ok("="));
            assert_eq!(&rt; str::from_utf8(&came.notes), Ok("=dvipbm: usage\n"));
        }
        Err(_) => assert!(&rt; false, "no memory"),
    }
}
