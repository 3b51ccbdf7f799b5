//! What outputs take, write after write.

use super::judge;
use outside::{Failed, MemOutput, Output, SureOutput, write_all};
use std::alloc::{AllocError as NoMemory, Global};

// Where it is written to, and how.
#[derive(Clone, Copy)]
enum To {
    // One byte at once, of which the listed writes fail, until all is written.
    Pieces(&'static [u64]),
    // Once, into this much room.
    Room(usize),
}

// The digit of a number of bytes that were written, or `!`.
fn sign_of(written: Result<usize, Failed>) -> u8 {
    match written {
        Ok(n) => b'0'.saturating_add(u8::try_from(n).unwrap_or(9)),
        Err(Failed) => b'!',
    }
}

// What a write gave, and all bytes that were written by then.
fn tell(told: &mut Vec<u8>, written: Result<usize, Failed>, bytes: &[u8]) -> Result<(), NoMemory> {
    told.push(sign_of(written))?;
    told.extend_from_slice(bytes)?;
    told.push(b' ')?;
    Ok(())
}

// What is told of texts that are each written whole, a byte at once.
fn tell_pieces(told: &mut Vec<u8>, mut out: MemOutput, texts: &[&[u8]]) -> Result<(), NoMemory> {
    for text in texts {
        let written = write_all(&mut out, text).map(|_| text.len());
        tell(told, written, out.bytes())?;
    }
    Ok(())
}

// What is told of texts that are each written once.
fn tell_once(told: &mut Vec<u8>, mut out: SureOutput, texts: &[&[u8]]) -> Result<(), NoMemory> {
    for text in texts {
        if !text.is_empty() {
            let written = out.write(text);
            tell(told, written, out.bytes())?;
        }
    }
    Ok(())
}

fn told(alloc: Global, to: To, texts: &[&[u8]]) -> Result<Vec<u8>, NoMemory> {
    let mut told = Vec::new(alloc);
    match to {
        To::Pieces(fails) => {
            let fails = Vec::from_slice(alloc, fails)?;
            tell_pieces(&mut told, MemOutput::new(alloc, 1, fails), texts)?;
        }
        To::Room(room) => tell_once(&mut told, SureOutput::new(alloc, room)?, texts)?,
    }
    Ok(told)
}

static ROWS: [(To, &'static [&'static [u8]], &'static str); 2] = [
    // A listed write fails in the middle.
    (To::Pieces(&[4]), &[b"abcdef", b"xy"], "!abc 2abcxy "),
    // A sure output fills its room.
    (To::Room(5), &[b"abc", b"def", b"f"], "3abc 2abcde !abcde "),
];

#[test]
fn outputs_take_bytes(rt: HostRuntime) {
    for (row, (to, texts, expected)) in ROWS.iter().enumerate() {
        judge(&rt, row, told(rt.alloc(), *to, texts), expected);
    }
}
