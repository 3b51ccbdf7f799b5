//! Documents of cases.

use crate::bytes::{Names, number};
use std::alloc::{AllocError as NoMemory, Global};
use std::io::{self, ErrorKind};
use std::mem;

/// A document: bytes as they are told, or made of fonts and pages.
#[derive(Drop)]
pub struct Document {
    bytes: Vec<u8>,
    // The definitions of a document that is being made.
    fonts: Vec<u8>,
    // Where its last page begins.
    last: u32,
    // How many pages it has.
    pages: u16,
    is_made: bool,
}

// num 1270, den 3 and mag 1000: at 300 dots to the inch a DVI unit is half a dot.
static SCALE: [u8; 12] = [0, 0, 4, 0xf6, 0, 0, 0, 3, 0, 0, 3, 0xe8];

// The ten counts at the beginning of each page, of which the first is 1.
static COUNTS: [u8; 40] = [
    0, 0, 0, 1, 0, 0, 0, 0, 0, 0, 0, 0, 0, 0, 0, 0, 0, 0, 0, 0, 0, 0, 0, 0, 0, 0, 0, 0, 0, 0, 0, 0,
    0, 0, 0, 0, 0, 0, 0, 0,
];

impl Document {
    /// No bytes.
    pub fn new(alloc: Global) -> Document {
        Document {
            bytes: Vec::new(alloc),
            fonts: Vec::new(alloc),
            last: u32::MAX,
            pages: 0,
            is_made: false,
        }
    }

    // Begins a document with these definitions: the preamble.
    fn begin(&mut self, fonts: Vec<u8>) -> Result<(), NoMemory> {
        self.fonts = fonts;
        self.is_made = true;
        self.bytes.extend_from_slice(&[0xf7, 2])?;
        self.bytes.extend_from_slice(&SCALE)?;
        self.bytes.push(0)?;
        self.bytes.extend_from_slice(&self.fonts)
    }

    // Adds a page with these commands.
    fn add_page(&mut self, commands: &[u8]) -> Result<(), NoMemory> {
        let begin = u32::try_from(self.bytes.len()).unwrap_or(0);
        self.bytes.push(0x8b)?;
        self.bytes.extend_from_slice(&COUNTS)?;
        self.bytes.extend_from_slice(&self.last.to_be_bytes())?;
        self.bytes.extend_from_slice(commands)?;
        self.last = begin;
        self.pages = self.pages.wrapping_add(1);
        self.bytes.push(0x8c)?;
        Ok(())
    }

    // Adds pages whose commands stand between commas, all of them n times.
    fn add_pages(&mut self, alloc: Global, names: &Names, text: &str) -> io::Result<()> {
        let (times, list) = text.split_once(':').unwrap_or(("1", text));
        for _ in 0..number(times)? {
            for page in list.split(',') {
                self.add_page(&names.bytes(alloc, page)?)?;
            }
        }
        Ok(())
    }

    // Ends a document that was begun: the postamble, with the same definitions.
    fn end(&mut self) -> Result<(), NoMemory> {
        let post = u32::try_from(self.bytes.len()).unwrap_or(0);
        self.bytes.push(0xf8)?;
        self.bytes.extend_from_slice(&self.last.to_be_bytes())?;
        self.bytes.extend_from_slice(&SCALE)?;
        self.bytes.extend_from_slice(&[0u8; 10])?;
        self.bytes.extend_from_slice(&self.pages.to_be_bytes())?;
        self.bytes.extend_from_slice(&self.fonts)?;
        self.bytes.push(0xf9)?;
        self.bytes.extend_from_slice(&post.to_be_bytes())?;
        self.bytes.extend_from_slice(&[2, 223, 223, 223, 223])
    }

    // Puts other bytes in the place of those from one on.
    fn change(&mut self, at: usize, new: &[u8]) {
        for (byte, new) in self.bytes.iter_mut().skip(at).zip(new) {
            *byte = *new;
        }
    }

    /// Takes a field in: `doc` (bytes), `at` (`N:` and the bytes that stand from byte N on), `cut`
    /// (only the first N bytes), `fonts` (definitions, with which a document begins that is to be
    /// made) or `pages` (of that one, each by its commands, between commas; all `N:` times).
    pub fn take(&mut self, alloc: Global, names: &Names, key: &str, text: &str) -> io::Result<()> {
        match key {
            "doc" => self.bytes = names.bytes(alloc, text)?,
            "at" => {
                let (at, new) = text.split_once(':').unwrap_or(("0", text));
                self.change(number(at)? as usize, &names.bytes(alloc, new)?);
            }
            "cut" => self.bytes.truncate(number(text)? as usize),
            "fonts" => self.begin(names.bytes(alloc, text)?)?,
            "pages" => self.add_pages(alloc, names, text)?,
            _ => return Err(ErrorKind::InvalidInput.into()),
        }
        Ok(())
    }

    /// Hands the bytes out, whole.
    pub fn finish(&mut self, alloc: Global) -> Result<Vec<u8>, NoMemory> {
        if self.is_made {
            self.end()?;
        }
        Ok(mem::replace(&mut self.bytes, Vec::new(alloc)))
    }
}
