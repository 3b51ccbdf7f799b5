//! What is loaded of files that open, don't open, or fail when they are read.

use super::judge;
use super::streams::Call::{self, Fails, Moves};
use super::streams::{Calls, Source};
use outside::{FileName, FontSource, LoadStop};
use real_streams::{OpenedFonts, Opener};
use std::alloc::{AllocError as NoMemory, Global};
use std::io::ErrorKind::{self, Interrupted, NotFound, OutOfMemory, PermissionDenied};
use std::io::{self, Read};

// The one file that there is.
#[derive(Clone, Copy)]
enum File {
    // It opens, and its calls do this.
    Opens(&'static [Call]),
    // It fails so where it is opened.
    Stays(ErrorKind),
}

impl Opener for File {
    type File = Source;

    fn open(&self, name: &FileName) -> io::Result<Source> {
        match self {
            File::Opens(calls) if name.bytes() == b"dot.tfm".as_slice() => Ok(Source {
                left: b"12 words",
                calls: Calls::new(calls),
            }),
            File::Opens(_) => Err(NotFound.into()),
            File::Stays(kind) => Err((*kind).into()),
        }
    }
}

// What a load gives: the file's bytes or, in brackets, why there are none.
fn told(alloc: Global, file: File, name: &[u8]) -> Result<Vec<u8>, NoMemory> {
    let mut fonts = OpenedFonts::over(alloc, file);
    match fonts.load(&FileName::new(alloc, name)?) {
        Ok(Some(bytes)) => Ok(bytes),
        Ok(None) => Vec::from_slice(alloc, b"(none)"),
        Err(LoadStop::Failed) => Vec::from_slice(alloc, b"(failed)"),
        Err(LoadStop::NoMemory) => Vec::from_slice(alloc, b"(no memory)"),
    }
}

// A file, the name that is asked for, and what is loaded.
static ROWS: [(File, &'static [u8], &'static str); 9] = [
    (File::Opens(&[]), b"dot.tfm", "12 words"),
    (
        File::Opens(&[Moves(3), Fails(Interrupted), Moves(1)]),
        b"dot.tfm",
        "12 words",
    ),
    (
        File::Opens(&[Moves(3), Fails(PermissionDenied)]),
        b"dot.tfm",
        "(failed)",
    ),
    (
        File::Opens(&[Moves(3), Fails(NotFound)]),
        b"dot.tfm",
        "(failed)",
    ),
    (File::Opens(&[Fails(NotFound)]), b"dot.tfm", "(failed)"),
    (File::Opens(&[]), b"dot.tfm ", "(none)"),
    (File::Stays(NotFound), b"dot.tfm", "(none)"),
    (File::Stays(PermissionDenied), b"dot.tfm", "(failed)"),
    (File::Stays(OutOfMemory), b"dot.tfm", "(no memory)"),
];

#[test]
fn loads_give_the_file(rt: HostRuntime) {
    for (row, (file, name, expected)) in ROWS.iter().enumerate() {
        judge(&rt, row, told(rt.alloc(), *file, *name), expected);
    }
}

// A file of as many bytes as are read of it, each 7.
#[derive(Clone, Copy)]
struct Endless;

#[derive(Drop)]
struct Sevens;

impl Read for Sevens {
    fn read(&mut self, buf: &mut [u8]) -> io::Result<usize> {
        buf.fill(7);
        Ok(buf.len())
    }
}

impl Opener for Endless {
    type File = Sevens;

    fn open(&self, _name: &FileName) -> io::Result<Sevens> {
        Ok(Sevens)
    }
}

#[test]
fn a_long_file_is_cut_at_a_byte_more_than_a_font_file_may_have(rt: HostRuntime) {
    let mut fonts = OpenedFonts::over(rt.alloc(), Endless);
    let length = match FileName::new(rt.alloc(), b"dot.tfm") {
        Ok(name) => match fonts.load(&name) {
            Ok(Some(bytes)) => bytes.len(),
            _ => 0,
        },
        Err(_) => 0,
    };
    assert_eq!(&rt; length, 8_388_608 + 1);
}
