//! Texts that are gathered for writing.

use outside::{Failed, Gather, PIECE, SureOutput};
use std::alloc::Global;
use std::test::Fail;

// How many bytes were written after the first two puts and in the end, whether those begin and end
// so, and whether the end is that all was written.
type Told = (usize, usize, bool, bool, Result<(), Failed>);

// Texts, of which each is put as often together, into an output with this much room, and the bytes
// with which that begins and ends.
type Case = (
    usize,
    &'static [(&'static [u8], usize)],
    &'static [u8],
    &'static [u8],
);

fn told(alloc: Global, mut gather: Gather, case: &Case) -> Result<Told, Fail> {
    let (room, texts, begin, end) = *case;
    let mut out = SureOutput::new(alloc, room)?;
    let mut text = Vec::new(alloc);
    let mut held = 0;
    for (at, (part, times)) in texts.iter().enumerate() {
        if at == 2 {
            held = out.bytes().len();
        }
        text.clear();
        for _ in 0..*times {
            text.extend_from_slice(part)?;
        }
        gather.put(&mut out, &text);
    }
    let finished = gather.finish(&mut out);
    let bytes = out.bytes();
    Ok((
        held,
        bytes.len(),
        bytes.starts_with(begin),
        bytes.ends_with(end),
        finished,
    ))
}

static ROWS: [(Case, Told); 2] = [
    // A page that is larger than a piece.
    (
        (
            2 * PIECE,
            &[
                (b"P4\n", 1),
                (b"1 1\n", 1),
                (b"\x07", PIECE + 1),
                (b"end", 1),
            ],
            b"P4\n1 1\n",
            b"\x07end",
        ),
        (0, PIECE + 11, true, true, Ok(())),
    ),
    // A failed write ends a text.
    (
        (4, &[(b"abc", 1), (b"def", 1)], b"abcd", b"abcd"),
        (0, 4, true, true, Err(Failed)),
    ),
];

// Without memory each put is a write of its own.
static UNGATHERED: (Case, Told) = (
    (
        100,
        &[(b"abc", 1), (b"def", 1), (b"", 1), (b"gh", 1)],
        b"abcdef",
        b"gh",
    ),
    (6, 8, true, true, Ok(())),
);

#[test]
fn pieces_are_gathered(rt: HostRuntime) -> Result<(), Fail> {
    for (row, (case, expected)) in ROWS.iter().enumerate() {
        let gather = Gather::new(rt.alloc());
        assert_eq!(rt; told(rt.alloc(), gather, case)?, *expected, "row {row}");
    }
    let (case, expected) = &UNGATHERED;
    let gather = Gather::without_memory();
    assert_eq!(rt; told(rt.alloc(), gather, case)?, *expected, "ungathered");
    Ok(())
}
