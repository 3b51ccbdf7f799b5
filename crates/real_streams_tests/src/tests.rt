//! Streams and files of which chosen calls move few bytes, are interrupted or fail: tables, and a
//! test for each that goes over it.

mod fonts;
mod reads;
mod streams;
mod writes;

use std::alloc::AllocError as NoMemory;
use std::process::Abort;
use std::str;

// A row's text is the expected one.
fn judge(rt: &impl Abort, row: usize, found: Result<Vec<u8>, NoMemory>, expected: &str) {
    match &found {
        Ok(found) => assert_eq!(rt; str::from_utf8(found), Ok(expected), "row {row}"),
        Err(_) => assert!(rt; false, "row {row}: no memory"),
    }
}
