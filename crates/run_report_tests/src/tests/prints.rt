//! What is printed, and what came of it.

use super::histories::sized;
use cache_core::Entry;
use outside::{Gather, MemOutput};
use run_report::key::put_key;
use run_report::puts::{put, put_number};
use run_report::{Counts, put_summary, put_trace};
use std::alloc::Global;
use std::test::Fail;

/// What is printed.
#[derive(Clone, Copy)]
pub enum Print {
    Trace,
    Summary(Counts),
    /// The trace, and the summary after it.
    Both(Counts),
    /// The key of this name, size and design size.
    Key(&'static [u8], u32, u32),
    /// A text, and numbers of several types.
    Numbers,
}

fn put_print(
    gather: &mut Gather,
    out: &mut MemOutput,
    alloc: Global,
    print: &Print,
    history: &[Entry],
) -> Result<(), Fail> {
    match print {
        Print::Trace => put_trace(gather, out, history),
        Print::Summary(counts) => put_summary(gather, out, counts, history),
        Print::Both(counts) => {
            put_trace(gather, out, history);
            put_summary(gather, out, counts, history);
        }
        Print::Key(name, size, design) => {
            let key = sized(alloc, name, *size, *design)?;
            put_key(gather, out, &key);
        }
        Print::Numbers => {
            put(gather, out, b"at ");
            put_number(gather, out, 0u8);
            put(gather, out, b" ");
            put_number(gather, out, -2147483648i32);
            put(gather, out, b" ");
            put_number(gather, out, 18446744073709551615u64);
        }
    }
    Ok(())
}

/// What is printed to notes that take at most `piece` bytes a write, and fail at these writes. A
/// `!` at its end says that they failed.
pub fn printed(
    alloc: Global,
    print: &Print,
    history: &[Entry],
    piece: usize,
    fails: &[u64],
) -> Result<Vec<u8>, Fail> {
    let mut out = MemOutput::new(alloc, piece.max(1), Vec::from_slice(alloc, fails)?);
    let mut gather = Gather::new(alloc);
    put_print(&mut gather, &mut out, alloc, print, history)?;
    let end = gather.finish(&mut out);
    let mut told = Vec::from_slice(alloc, out.bytes())?;
    if end.is_err() {
        told.push(b'!')?;
    }
    Ok(told)
}
