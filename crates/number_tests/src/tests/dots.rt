//! Lengths in dots.
ghost use Rattle.std.specs.Prelude.{◌<◌, ◌≤◌};

use pixel_round::{Conv, Units};

// The fraction of a preamble, the magnification and the resolution.
type Given = (u32, u32, u32, u32);

// A number that isn't 0, and at most another.
fn part(number: u32, most: u32) -> u32
    requires { 0 < most }
    ensures some { 0 < result }
    ensures few { result ≤ most }
{
    number.max(1).min(most)
}

// The nearest and the least number of dots of a length, or `None` where a unit has too many.
fn told(given: Given, x: i64) -> Option<(i64, i64)> {
    let (num, den, mag, res) = given;
    let most = 2147483647;
    if x.unsigned_abs() > 2147483648 {
        return None;
    }
    let conv = Conv::new(&Units {
        num: part(num, most),
        den: part(den, most),
        mag: part(mag, most),
        res: part(res, 4800),
    })
    .ok()?;
    Some((conv.round(x), conv.ceil(x)))
}

// One half of a dot for a unit: 1270 * 300 * 1000 = 381000000 over 254000000 * 3 = 762000000. The
// halves go away from zero, and a rule's side goes up.
const HALF: Given = (1270, 3, 1000, 300);

// TeX's units at 300 dots to the inch: 25400000 * 300 * 1000 over 254000000 * 473628672 is 625 /
// 9867264, so that 7893 units are 0.49995 dots, 7894 are 0.50001, 4933632 are 312.5 and 2^31 are
// 136023.246.
const TEX: Given = (25400000, 473628672, 1000, 300);

// 2147483647 * 4799 * 1000003 over 254000000 * 2147483646 is in lowest terms, and about 18.9: with
// x at 2^31 the numbers take 95 bits, with x at 0 they fit 64.
const WIDE: Given = (2147483647, 2147483646, 1000003, 4799);

static ROWS: [(Given, i64, Option<(i64, i64)>); 23] = [
    (HALF, 1, Some((1, 1))),
    (HALF, -1, Some((-1, 0))),
    (HALF, 3, Some((2, 2))),
    (HALF, -3, Some((-2, -1))),
    (HALF, 4, Some((2, 2))),
    (HALF, -5, Some((-3, -2))),
    (HALF, 0, Some((0, 0))),
    (TEX, 7893, Some((0, 1))),
    (TEX, 7894, Some((1, 1))),
    (TEX, -7894, Some((-1, 0))),
    (TEX, 4933632, Some((313, 313))),
    (TEX, -4933632, Some((-313, -312))),
    (TEX, 2147483648, Some((136023, 136024))),
    (TEX, -2147483648, Some((-136023, -136023))),
    (WIDE, 0, Some((0, 0))),
    (WIDE, 1, Some((19, 19))),
    (WIDE, -1, Some((-19, -18))),
    (WIDE, 3, Some((57, 57))),
    (WIDE, 2147483648, Some((40574035232, 40574035232))),
    (WIDE, -2147483648, Some((-40574035232, -40574035231))),
    // 32512 * 4000 * 1000 is 130048000000, which is 512 * 254000000: just as many as may be.
    ((2147483647, 1, 1000, 300), 0, None),
    ((32513, 1, 1000, 4000), 0, None),
    (
        (32512, 1, 1000, 4000),
        -2147483648,
        Some((-1099511627776, -1099511627776)),
    ),
];

#[test]
fn lengths_in_dots(rt: HostRuntime) {
    for (row, (units, x, dots)) in ROWS.iter().enumerate() {
        assert_eq!(rt; told(*units, *x), *dots, "row {row}");
    }
}
