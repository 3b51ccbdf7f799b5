//! A trace of more lines than are gathered for one write.

use super::histories::{Call, Done, history_of};
use super::prints::{Print, printed};
use run_report::Counts;
use std::alloc::Global;
use std::test::Fail;

const COUNTS: Counts = Counts {
    pages: 1,
    loads: 8,
    black: 22,
};

static LINES: [Call; 1] = [(6000, 1, b"dot", Done::Hit)];

// Whether all 6000 lines of 23 bytes were printed; whether a prefix was of one write's length and
// no more; and whether what was printed begins the lines, but for a `!` at its end.
fn told(alloc: Global, print: &Print, fails: &[u64]) -> Result<(bool, bool, bool), Fail> {
    let history = history_of(alloc, &LINES)?;
    let found = printed(alloc, print, &history, 1000000, fails)?;
    let mut lines: Vec<u8> = Vec::new(alloc);
    for _ in 0..6000 {
        lines.extend_from_slice(b"1 look dot 128 128 hit\n")?;
    }
    let failed = found.ends_with(b"!");
    let written = if failed {
        found.len().saturating_sub(1)
    } else {
        found.len()
    };
    let within = 65000 < written && written <= 65536;
    let whole = !failed && written == lines.len();
    Ok((whole, within, lines.starts_with(&found[..written])))
}

// The second write fails, so all that was written is a prefix of one write's length, and the
// summary after it isn't printed.
static ROWS: [(Print, &'static [u64], (bool, bool, bool)); 2] = [
    (Print::Trace, &[], (true, false, true)),
    (Print::Both(COUNTS), &[2], (false, true, true)),
];

#[test]
fn a_write_fails_in_a_long_trace(rt: HostRuntime) -> Result<(), Fail> {
    for (row, (print, fails, expected)) in ROWS.iter().enumerate() {
        assert_eq!(rt; told(rt.alloc(), print, fails)?, *expected, "row {row}");
    }
    Ok(())
}
