//! What an input over a stream gives until its end.

use super::judge;
use super::streams::Call::{self, Fails, Moves};
use super::streams::{Calls, Source};
use outside::{Failed, Input};
use real_streams::FromReader;
use std::alloc::{AllocError as NoMemory, Global};
use std::io::ErrorKind::{BrokenPipe, Interrupted, NotFound};

// Reads eight bytes at once until the end, with a `!` for each fault.
fn told(alloc: Global, calls: &'static [Call]) -> Result<Vec<u8>, NoMemory> {
    let mut input = FromReader::new(Source {
        left: b"a page of type",
        calls: Calls::new(calls),
    });
    let mut told = Vec::new(alloc);
    for _ in 0..20 {
        let mut buf = [0; 8];
        match input.read(&mut buf) {
            Ok(0) => return Ok(told),
            Ok(n) => told.extend_from_slice(&buf[..n])?,
            Err(Failed) => told.push(b'!')?,
        }
    }
    told.extend_from_slice(b" without an end")?;
    Ok(told)
}

// What the calls of the stream do, and what is read.
static ROWS: [(&'static [Call], &'static str); 6] = [
    (&[], "a page of type"),
    (&[Moves(3), Moves(1), Moves(2)], "a page of type"),
    (&[Moves(6), Fails(BrokenPipe)], "a page! of type"),
    (
        &[Moves(6), Fails(NotFound), Fails(NotFound)],
        "a page!! of type",
    ),
    (
        &[
            Fails(Interrupted),
            Moves(2),
            Fails(Interrupted),
            Fails(Interrupted),
        ],
        "a page of type",
    ),
    (&[Moves(8), Moves(8), Fails(BrokenPipe)], "a page of type!"),
];

#[test]
fn reads_give_the_stream(rt: HostRuntime) {
    for (row, (calls, expected)) in ROWS.iter().enumerate() {
        judge(&rt, row, told(rt.alloc(), *calls), expected);
    }
}
