//! Small documents, with positions worked out by hand.

mod documents;
mod faults;
mod many_pages;

use page_index::{DocFault, Index, IndexStop};
use std::alloc::{AllocError as NoMemory, Global};

/// A document of one page with a put rule of height 4 and width 6. Bop stands at 15, the rule at
/// 60, Eop at 69, Post at 70, PostPost at 99, and the first byte 223 at 105.
pub const ONE_PAGE: [u8; 112] = [
    0xf7, 2, 0, 0, 0x04, 0xf6, 0, 0, 0, 3, 0, 0, 0x03, 0xe8, 0, // the preamble
    0x8b, 0, 0, 0, 1, 0, 0, 0, 0, 0, 0, 0, 0, 0, 0, 0, 0, 0, 0, 0, 0, 0, 0, 0, 0, 0, 0, 0, 0, 0, 0,
    0, 0, 0, 0, 0, 0, 0, 0, 0, 0, 0xff, 0xff, 0xff, 0xff, // the page's beginning
    0x89, 0, 0, 0, 4, 0, 0, 0, 6, // the rule
    0x8c, // its end
    0xf8, 0, 0, 0, 0x0f, 0, 0, 0x04, 0xf6, 0, 0, 0, 3, 0, 0, 0x03, 0xe8, 0, 0, 0, 0, 0, 0, 0, 0, 0,
    0, 0, 1, // the postamble
    0xf9, 0, 0, 0, 0x46, 2, 0xdf, 0xdf, 0xdf, 0xdf, 0xdf, 0xdf, 0xdf,
];

/// A file: its bytes, how many of them there are, and others that stand from a place on.
pub type File = (&'static [u8], usize, usize, &'static [u8]);

/// A file's bytes.
pub fn bytes_of(alloc: Global, file: &File) -> Result<Vec<u8>, NoMemory> {
    let (beginning, length, at, changed) = *file;
    let mut bytes = Vec::from_slice(alloc, beginning)?;
    for (byte, other) in bytes.iter_mut().skip(at).zip(changed) {
        *byte = *other;
    }
    bytes.truncate(length);
    Ok(bytes)
}

/// The first fault of a file, at 300 dots to the inch, if it has one.
pub fn fault_of(alloc: Global, bytes: &[u8]) -> Result<Option<DocFault>, NoMemory> {
    match Index::read(alloc, bytes, 300) {
        Ok(_) => Ok(None),
        Err(IndexStop::Fault(fault)) => Ok(Some(fault)),
        Err(IndexStop::NoMemory) => Err(NoMemory),
    }
}
