//! What inputs give until their end.

use super::judge;
use outside::{Failed, Input, MemInput, SureInput};
use std::alloc::{AllocError as NoMemory, Global};

// Reads four bytes at once until the end, with a `!` for each fault.
fn read_all<I: Input>(alloc: Global, input: &mut I) -> Result<Vec<u8>, NoMemory> {
    let mut told = Vec::new(alloc);
    for _ in 0..20 {
        let mut buf = [0; 4];
        match input.read(&mut buf) {
            Ok(0) => return Ok(told),
            Ok(n) => told.extend_from_slice(&buf[..n])?,
            Err(Failed) => told.push(b'!')?,
        }
    }
    told.extend_from_slice(b" without an end")?;
    Ok(told)
}

fn told(alloc: Global, fails: Option<&[u64]>) -> Result<Vec<u8>, NoMemory> {
    let bytes = Vec::from_slice(alloc, b"a page of type")?;
    match fails {
        None => read_all(alloc, &mut SureInput::new(bytes)),
        Some(fails) => {
            let fails = Vec::from_slice(alloc, fails)?;
            read_all(alloc, &mut MemInput::new(bytes, 1, fails))
        }
    }
}

// The reads of one byte that fail, or `None` for an input that never fails, and what is read.
static ROWS: [(Option<&'static [u64]>, &'static str); 2] = [
    (None, "a page of type"),
    (Some(&[1, 3]), "!a! page of type"),
];

#[test]
fn inputs_give_their_bytes(rt: HostRuntime) {
    for (row, (fails, expected)) in ROWS.iter().enumerate() {
        judge(&rt, row, told(rt.alloc(), *fails), expected);
    }
}
