//! What a stream holds after texts were written through an output.

use super::judge;
use super::streams::Call::{self, Fails, Moves};
use super::streams::{Calls, Sink};
use outside::write_all;
use real_streams::ToWriter;
use std::alloc::{AllocError as NoMemory, Global};
use std::io::ErrorKind::{Interrupted, StorageFull};
use std::marker::Brand;

// Writes two texts, with a `!` for each that wasn't written whole, and then tells what is held.
fn told(alloc: Global, calls: &'static [Call]) -> Result<Vec<u8>, NoMemory> {
    let mut out = ToWriter::<Brand, _>::new(Sink::new(alloc, Calls::new(calls)));
    let mut told = Vec::new(alloc);
    for text in [b"P4 40 48 ", b"cc cc c0 "] {
        if write_all(&mut out, text).is_err() {
            told.push(b'!')?;
        }
    }
    told.extend_from_slice(&out.into_writer().held)?;
    Ok(told)
}

// What the calls of the stream do, and what it holds in the end.
static ROWS: [(&'static [Call], &'static str); 6] = [
    (&[], "P4 40 48 cc cc c0 "),
    (&[Moves(2), Moves(4), Moves(1)], "P4 40 48 cc cc c0 "),
    (&[Moves(9), Moves(4), Moves(1)], "P4 40 48 cc cc c0 "),
    (
        &[Moves(2), Fails(Interrupted), Fails(Interrupted)],
        "P4 40 48 cc cc c0 ",
    ),
    (&[Moves(2), Moves(0)], "!P4cc cc c0 "),
    (&[Moves(9), Moves(4), Fails(StorageFull)], "!P4 40 48 cc c"),
];

#[test]
fn writes_reach_the_stream(rt: HostRuntime) {
    for (row, (calls, expected)) in ROWS.iter().enumerate() {
        judge(&rt, row, told(rt.alloc(), *calls), expected);
    }
}
