//! Numbers in their bytes.

use big_endian::{signed, unsigned};

// The number that one to four bytes spell, with a sign or without.
fn told(bytes: &[u8], has_sign: bool) -> Option<i64> {
    if bytes.is_empty() || bytes.len() > 4 {
        return None;
    }
    if has_sign {
        Some(i64::from(signed(bytes)))
    } else {
        Some(i64::from(unsigned(bytes)))
    }
}

static ROWS: [(&'static [u8], bool, i64); 11] = [
    (&[0x41], false, 65),
    (&[0x00, 0x80], false, 128),
    (&[0x0f, 0x42, 0x40], false, 1_000_000),
    (&[0x00, 0x00, 0x04, 0xf6], false, 1270),
    (&[0xff, 0xff, 0xff, 0xff], false, 4_294_967_295),
    (&[0xff], true, -1),
    (&[0x80], true, -128),
    (&[0x00, 0x80], true, 128),
    (&[0xff, 0xff, 0xfe], true, -2),
    (&[0x00, 0x00, 0x04, 0xf6], true, 1270),
    (&[0xff, 0xff, 0xff, 0xff], true, -1),
];

#[test]
fn numbers_in_bytes(rt: HostRuntime) {
    for (row, (bytes, has_sign, number)) in ROWS.iter().enumerate() {
        assert_eq!(rt; told(bytes, *has_sign), Some(*number), "row {row}");
    }
}
