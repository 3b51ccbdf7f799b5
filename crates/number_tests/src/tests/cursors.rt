//! A cursor's calls, one after another.

use byte_cursor::Cursor;

// A call: a letter, and how many bytes it asks for.
type Call = (char, usize);

// The number or the bytes that it gives: the number of no bytes is 0.
type Given = Option<(i64, &'static [u8])>;

// Makes the call. `b` is a byte, `u` and `s` are numbers without a sign and with one, and `t` is
// the bytes themselves.
fn given<'a>(cursor: &mut Cursor<'a>, call: Call) -> Option<(i64, &'a [u8])> {
    let (letter, count) = call;
    let few = count.max(1).min(4);
    match letter {
        'b' => Some((i64::from(cursor.byte().ok()?), &[])),
        'u' => Some((i64::from(cursor.unsigned(few).ok()?), &[])),
        's' => Some((i64::from(cursor.signed(few).ok()?), &[])),
        _ => Some((0, cursor.take(count).ok()?)),
    }
}

// Each call with what it gives, how many bytes were read then, and how many are left.
static ROWS: [(Call, Given, usize, usize); 8] = [
    (('b', 1), Some((255, &[])), 1, 9),
    (('u', 2), Some((256, &[])), 3, 7),
    (('s', 3), Some((-8388608, &[])), 6, 4),
    (('s', 2), Some((-2, &[])), 8, 2),
    (('u', 3), None, 8, 2),
    (('t', 2), Some((0, b"ab")), 10, 0),
    (('b', 1), None, 10, 0),
    (('t', 0), Some((0, &[])), 10, 0),
];

#[test]
fn numbers_and_stretches(rt: HostRuntime) {
    let mut cursor = Cursor::new(b"\xff\x01\x00\x80\x00\x00\xff\xfeab");
    for (row, (call, want, at, left)) in ROWS.iter().enumerate() {
        let given = given(&mut cursor, *call);
        assert_eq!(rt;
            (given, cursor.at(), cursor.left()),
            (*want, *at, *left),
            "row {row}"
        );
    }
}
