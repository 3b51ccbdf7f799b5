//! What is printed of which history, and in which pieces.

use super::histories::{Call, Done};
use super::prints::Print;
use super::texts::{
    SUMMARY_OF_EACH, SUMMARY_OF_HEAVY, SUMMARY_OF_NONE, SUMMARY_OF_ONE, SUMMARY_OF_PAGES,
    SUMMARY_OF_THREE, TRACE_OF_HEAVY, TRACE_OF_ITSELF, TRACE_OF_ONE, TRACE_OF_THREE,
};
use run_report::Counts;

// A virtual font and its two fonts, which load two, three and three files.
const ONE_PAGE: Counts = Counts {
    pages: 1,
    loads: 8,
    black: 22,
};

// The page looks for the virtual font, its two fonts, and these again, in a cache of one font.
const OF_ONE: [Call; 10] = [
    (1, 1, b"duo", Done::Claimed),
    (1, 1, b"duo", Done::Filled),
    (1, 1, b"dot", Done::Claimed),
    (1, 1, b"dot", Done::Evicted(&[b"duo"])),
    (1, 1, b"bar", Done::Claimed),
    (1, 1, b"bar", Done::Evicted(&[b"dot"])),
    (1, 1, b"dot", Done::Claimed),
    (1, 1, b"dot", Done::Evicted(&[b"bar"])),
    (1, 1, b"bar", Done::Claimed),
    (1, 1, b"bar", Done::Evicted(&[b"dot"])),
];

// In a cache of three fonts the second looks hit.
const OF_THREE: [Call; 8] = [
    (1, 1, b"duo", Done::Claimed),
    (1, 1, b"duo", Done::Filled),
    (1, 1, b"dot", Done::Claimed),
    (1, 1, b"dot", Done::Filled),
    (1, 1, b"bar", Done::Claimed),
    (1, 1, b"bar", Done::Filled),
    (1, 1, b"dot", Done::Hit),
    (1, 1, b"bar", Done::Hit),
];

// Three pages that look 54 fonts up, of which three are there.
const THREE_PAGES: [Call; 7] = [
    (1, 1, b"duo", Done::Claimed),
    (1, 1, b"duo", Done::Filled),
    (1, 1, b"dot", Done::Claimed),
    (1, 1, b"dot", Done::Filled),
    (1, 1, b"bar", Done::Claimed),
    (1, 1, b"bar", Done::Filled),
    (51, 1, b"dot", Done::Hit),
];

// Each kind of call another number of times: four claims, of which two are given up and one evicts.
const EACH_KIND: [Call; 12] = [
    (1, 1, b"duo", Done::Claimed),
    (1, 1, b"duo", Done::Filled),
    (1, 1, b"dot", Done::Claimed),
    (1, 1, b"dot", Done::Evicted(&[b"duo"])),
    (1, 2, b"bar", Done::Claimed),
    (1, 3, b"bar", Done::Busy),
    (1, 2, b"bar", Done::Released),
    (1, 2, b"bar", Done::Claimed),
    (1, 3, b"bar", Done::Busy),
    (1, 2, b"bar", Done::Released),
    (1, 4, b"bar", Done::Busy),
    (5, 4, b"dot", Done::Hit),
];

// One font drives three out, and another one is too heavy.
const TOO_HEAVY: [Call; 11] = [
    (1, 1, b"duo", Done::Claimed),
    (1, 1, b"duo", Done::Filled),
    (1, 1, b"dot", Done::Claimed),
    (1, 1, b"dot", Done::Filled),
    (1, 1, b"bar", Done::Claimed),
    (1, 1, b"bar", Done::Filled),
    (1, 1, b"big", Done::Claimed),
    (1, 1, b"big", Done::Evicted(&[b"duo", b"dot", b"bar"])),
    (1, 1, b"huge", Done::Claimed),
    (1, 1, b"huge", Done::NotKept),
    (1, 1, b"big", Done::Hit),
];

// A font that is in no file is looked up, and its fault is filled in.
const NO_FILE: [Call; 2] = [
    (1, 1, b"none", Done::Claimed),
    (1, 1, b"none", Done::Filled),
];

// A virtual font whose character sets itself is looked up eleven times.
const SETS_ITSELF: [Call; 3] = [
    (1, 1, b"loop", Done::Claimed),
    (1, 1, b"loop", Done::Filled),
    (10, 1, b"loop", Done::Hit),
];

// The source of the first seat fails while the last one, of 32 workers, looks for the same key.
const GIVEN_UP: [Call; 3] = [
    (1, 1, b"duo", Done::Claimed),
    (1, 32, b"duo", Done::Busy),
    (1, 1, b"duo", Done::Released),
];

// The numbers of bytes that one write takes at most.
const PIECES: [usize; 3] = [1, 7, 1000];

// What is printed, the calls of the font cache, how many bytes a write takes at most, the writes
// that fail, and what was written, with a `!` at its end where a write failed.
pub static ROWS: [(
    Print,
    &'static [Call],
    &'static [usize],
    &'static [u64],
    &'static str,
); 21] = [
    (Print::Trace, &OF_ONE, &PIECES, &[], TRACE_OF_ONE),
    (Print::Trace, &OF_THREE, &PIECES, &[], TRACE_OF_THREE),
    (
        Print::Trace,
        &NO_FILE,
        &PIECES,
        &[],
        "1 look none 128 128 claimed\n1 fill none 128 128 evict -\n",
    ),
    (Print::Trace, &SETS_ITSELF, &PIECES, &[], TRACE_OF_ITSELF),
    (
        Print::Trace,
        &GIVEN_UP,
        &PIECES,
        &[],
        "1 look duo 128 128 claimed\n32 look duo 128 128 busy\n1 release duo 128 128\n",
    ),
    (Print::Trace, &[], &PIECES, &[], ""),
    (Print::Trace, &TOO_HEAVY, &PIECES, &[], TRACE_OF_HEAVY),
    (
        Print::Summary(ONE_PAGE),
        &TOO_HEAVY,
        &PIECES,
        &[],
        SUMMARY_OF_HEAVY,
    ),
    (
        Print::Summary(ONE_PAGE),
        &OF_THREE,
        &PIECES,
        &[],
        SUMMARY_OF_THREE,
    ),
    (
        Print::Summary(Counts {
            pages: 1,
            loads: 14,
            black: 22,
        }),
        &OF_ONE,
        &PIECES,
        &[],
        SUMMARY_OF_ONE,
    ),
    (
        Print::Summary(Counts {
            pages: 3,
            loads: 8,
            black: 372,
        }),
        &THREE_PAGES,
        &PIECES,
        &[],
        SUMMARY_OF_PAGES,
    ),
    (
        Print::Summary(Counts {
            pages: u64::MAX,
            loads: u128::MAX,
            black: 0,
        }),
        &EACH_KIND,
        &PIECES,
        &[],
        SUMMARY_OF_EACH,
    ),
    (
        Print::Summary(Counts {
            pages: 0,
            loads: 0,
            black: u64::MAX,
        }),
        &[],
        &PIECES,
        &[],
        SUMMARY_OF_NONE,
    ),
    // The first write fails, one in the trace and one in the summary.
    (Print::Both(ONE_PAGE), &OF_THREE, &[4], &[1], "!"),
    (Print::Trace, &OF_THREE, &[8], &[3], "1 look duo 128 1!"),
    (
        Print::Summary(ONE_PAGE),
        &OF_THREE,
        &[10],
        &[4],
        "pages 1\nlooks 5\nhits 2\nclaims !",
    ),
    // Bytes of a key below `!` and above `~` are question marks.
    (
        Print::Key(b"\x00\x0a\x1f !~\x7f\x80\xff", 128, 128),
        &[],
        &[5],
        &[],
        "????!~??? 128 128",
    ),
    (
        Print::Key(b"a/b", 1, 134217727),
        &[],
        &[5],
        &[],
        "a/b 1 134217727",
    ),
    (Print::Key(b"", 655360, 1), &[], &[5], &[], " 655360 1"),
    (
        Print::Key(b"cmr 10", 4294967295, 10),
        &[],
        &[5],
        &[],
        "cmr?10 4294967295 10",
    ),
    (
        Print::Numbers,
        &[],
        &[1000],
        &[],
        "at 0 -2147483648 18446744073709551615",
    ),
];
