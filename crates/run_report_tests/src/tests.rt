//! The texts as they are printed, in one write and in pieces, and to notes that fail: a table, and
//! one test that goes over it.

mod histories;
mod long;
mod prints;
mod rows;
mod texts;

use histories::history_of;
use prints::printed;
use rows::ROWS;
use std::str;
use std::test::Fail;

#[test]
fn texts_are_printed(rt: HostRuntime) -> Result<(), Fail> {
    for (row, (print, calls, pieces, fails, expected)) in ROWS.iter().enumerate() {
        let history = history_of(rt.alloc(), calls)?;
        for piece in *pieces {
            let found = printed(rt.alloc(), print, &history, *piece, fails)?;
            assert_eq!(rt;
                str::from_utf8(&found),
                Ok(*expected),
                "row {row}, {piece} bytes a write"
            );
        }
    }
    Ok(())
}
