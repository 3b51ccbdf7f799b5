//! Bytes and numbers as text.

use outside::{FileName, Library};
use std::alloc::{AllocError as NoMemory, Global};
use std::io::{self, ErrorKind};

/// Bytes by their names.
#[derive(Drop)]
pub struct Names {
    table: Library,
}

/// A number in decimal digits.
pub fn number(text: &str) -> io::Result<u64> {
    Ok(text.parse::<u64>().map_err(|_| ErrorKind::InvalidInput)?)
}

// The value of a hex digit.
fn digit(byte: u8) -> Option<u8> {
    match byte {
        b'0'..=b'9' => Some(byte - b'0'),
        b'a'..=b'f' => Some(byte - b'a' + 10),
        _ => None,
    }
}

// The byte of two hex digits.
fn hex_byte(pair: &[u8]) -> Option<u8> {
    if pair.len() != 2 {
        return None;
    }
    let high = digit(pair[0])?;
    let low = digit(pair[1])?;
    Some(high.wrapping_mul(16).wrapping_add(low))
}

// Adds the bytes of hex digits.
fn add_hex(bytes: &mut Vec<u8>, digits: &[u8]) -> io::Result<()> {
    for pair in digits.chunks(2) {
        bytes.push(hex_byte(pair).ok_or(ErrorKind::InvalidInput)?)?;
    }
    Ok(())
}

impl Names {
    /// No bytes have a name.
    pub fn new(alloc: Global) -> Names {
        Names {
            table: Library::new(alloc),
        }
    }

    /// Names these bytes.
    pub fn add(&mut self, alloc: Global, name: &str, bytes: Vec<u8>) -> Result<(), NoMemory> {
        self.table
            .add(FileName::new(alloc, name.as_bytes())?, bytes)
    }

    // Adds the bytes of this name.
    fn add_named(&self, alloc: Global, bytes: &mut Vec<u8>, name: &[u8]) -> io::Result<()> {
        let name = FileName::new(alloc, name)?;
        let Some(named) = self.table.get(&name) else {
            return Err(ErrorKind::NotFound.into());
        };
        bytes.extend_from_slice(named)?;
        Ok(())
    }

    // Adds the bytes of a part that stands once.
    fn add_once(&self, alloc: Global, bytes: &mut Vec<u8>, part: &str) -> io::Result<()> {
        match part.as_bytes() {
            [b'$', name @ ..] => self.add_named(alloc, bytes, name),
            [b'\'', text @ ..] => Ok(bytes.extend_from_slice(text)?),
            digits => add_hex(bytes, digits),
        }
    }

    /// The bytes that a text tells.
    pub fn bytes(&self, alloc: Global, text: &str) -> io::Result<Vec<u8>> {
        let mut bytes = Vec::new(alloc);
        for part in text.split('+') {
            let (once, times) = part.split_once('*').unwrap_or((part, "1"));
            for _ in 0..number(times)? {
                self.add_once(alloc, &mut bytes, once)?;
            }
        }
        Ok(bytes)
    }
}
