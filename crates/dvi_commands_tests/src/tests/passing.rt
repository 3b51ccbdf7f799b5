//! Places after plain commands.
use dvi_commands::end_of_skippable;

// Character 65, font 7 by one byte, a motion to the right by 256, a rule put, and the page's end.
const PAGE: [u8; 16] = [65, 235, 7, 144, 1, 0, 137, 0, 0, 0, 4, 0, 0, 0, 6, 140];

// Bytes, a place, and the place after the plain command there; the last two are cut short.
static ROWS: [(&[u8], usize, Option<usize>); 8] = [
    (&PAGE, 0, Some(1)),
    (&PAGE, 1, Some(3)),
    (&PAGE, 3, Some(6)),
    (&PAGE, 6, Some(15)),
    (&PAGE, 15, None),
    (&PAGE, 16, None),
    (&[65, 235, 7, 144, 1], 3, None),
    (&[65, 235, 7, 144, 1, 0, 137, 0, 0, 0, 4, 0, 0, 0], 6, None),
];

// The place after, where the place is in the bytes.
fn place_after(bytes: &[u8], at: usize) -> Option<Option<usize>> {
    if at > bytes.len() {
        return None;
    }
    Some(end_of_skippable(bytes, at))
}

#[test]
fn passes_over_plain_commands(rt: HostRuntime) {
    for (bytes, at, after) in ROWS.iter() {
        assert_eq!(rt; place_after(bytes, *at), Some(*after), "at {at}");
    }
}
