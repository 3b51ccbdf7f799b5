//! Motions.
use super::script::{H, HH, Reply, Row, Step, V, VV, W, X, Y, Z, assert_follows};
use drift_rules::{Mark, PenFault, PenStop};
use pixel_round::Scale;

const OVERFLOW: Reply = Err(PenStop::Fault(PenFault::Overflow));

// With a space of 2, two motions right by 1 lead to h = 2 and hh = 2. From there a motion of 2 or
// more, or of -8 or less, is rounded anew; a smaller one adds its own rounding, which the drift
// rule holds within two dots. And down, where five spaces are a line space, up or down.
static ACROSS_AND_DOWN: [Row; 28] = [
    (Step::New, Ok(None), &[]),
    (Step::Right(1, 2), Ok(None), &[]),
    (Step::Right(1, 2), Ok(None), &[(H, 2), (HH, 2)]),
    (Step::Right(2, 2), Ok(None), &[(H, 4), (HH, 2)]),
    (Step::New, Ok(None), &[]),
    (Step::Right(1, 2), Ok(None), &[]),
    (Step::Right(1, 2), Ok(None), &[(H, 2), (HH, 2)]),
    (Step::Right(1, 2), Ok(None), &[(H, 3), (HH, 3)]),
    (Step::New, Ok(None), &[]),
    (Step::Right(1, 2), Ok(None), &[]),
    (Step::Right(1, 2), Ok(None), &[(H, 2), (HH, 2)]),
    (Step::Right(-8, 2), Ok(None), &[(H, -6), (HH, -3)]),
    (Step::New, Ok(None), &[]),
    (Step::Right(1, 2), Ok(None), &[]),
    (Step::Right(1, 2), Ok(None), &[(H, 2), (HH, 2)]),
    (Step::Right(-7, 2), Ok(None), &[(H, -5), (HH, -2)]),
    (Step::New, Ok(None), &[]),
    (Step::Down(1, 2), Ok(None), &[]),
    (Step::Down(1, 2), Ok(None), &[(V, 2), (VV, 2)]),
    (Step::Down(10, 2), Ok(None), &[(V, 12), (VV, 6)]),
    (Step::New, Ok(None), &[]),
    (Step::Down(1, 2), Ok(None), &[]),
    (Step::Down(1, 2), Ok(None), &[(V, 2), (VV, 2)]),
    (Step::Down(9, 2), Ok(None), &[(V, 11), (VV, 7)]),
    (Step::New, Ok(None), &[]),
    (Step::Down(1, 2), Ok(None), &[]),
    (Step::Down(1, 2), Ok(None), &[(V, 2), (VV, 2)]),
    (Step::Down(-10, 2), Ok(None), &[(V, -8), (VV, -4)]),
];

#[test]
fn moves_across_and_down(rt: HostRuntime) -> Result<(), Scale> {
    assert_follows(&rt, rt.alloc(), &ACROSS_AND_DOWN)
}

// Each motion by 1 is rounded up to a dot, and the sixth is held where 6 units are 3 dots: at 5,
// and not at 6. To the left and up the same holds. Each rule of 2 by 2 units is one dot, where it
// is put: in its row the motion down comes after it.
static DRIFTS: [Row; 31] = [
    (Step::Right(1, 2), Ok(None), &[(HH, 1)]),
    (
        Step::PutRule(2, 2),
        Ok(Some(Mark::Rule {
            x: 1,
            y: 0,
            w: 1,
            h: 1,
        })),
        &[],
    ),
    (Step::Down(1, 2), Ok(None), &[(VV, 1)]),
    (Step::Right(1, 2), Ok(None), &[(HH, 2)]),
    (
        Step::PutRule(2, 2),
        Ok(Some(Mark::Rule {
            x: 2,
            y: 1,
            w: 1,
            h: 1,
        })),
        &[],
    ),
    (Step::Down(1, 2), Ok(None), &[(VV, 2)]),
    (Step::Right(1, 2), Ok(None), &[(HH, 3)]),
    (
        Step::PutRule(2, 2),
        Ok(Some(Mark::Rule {
            x: 3,
            y: 2,
            w: 1,
            h: 1,
        })),
        &[],
    ),
    (Step::Down(1, 2), Ok(None), &[(VV, 3)]),
    (Step::Right(1, 2), Ok(None), &[(HH, 4)]),
    (
        Step::PutRule(2, 2),
        Ok(Some(Mark::Rule {
            x: 4,
            y: 3,
            w: 1,
            h: 1,
        })),
        &[],
    ),
    (Step::Down(1, 2), Ok(None), &[(VV, 4)]),
    (Step::Right(1, 2), Ok(None), &[(HH, 5)]),
    (
        Step::PutRule(2, 2),
        Ok(Some(Mark::Rule {
            x: 5,
            y: 4,
            w: 1,
            h: 1,
        })),
        &[],
    ),
    (Step::Down(1, 2), Ok(None), &[(VV, 5)]),
    (Step::Right(1, 2), Ok(None), &[(HH, 5)]),
    (
        Step::PutRule(2, 2),
        Ok(Some(Mark::Rule {
            x: 5,
            y: 5,
            w: 1,
            h: 1,
        })),
        &[],
    ),
    (Step::Down(1, 2), Ok(None), &[(VV, 5)]),
    (Step::New, Ok(None), &[]),
    (Step::Right(-1, 2), Ok(None), &[]),
    (Step::Down(-1, 2), Ok(None), &[(HH, -1), (VV, -1)]),
    (Step::Right(-1, 2), Ok(None), &[]),
    (Step::Down(-1, 2), Ok(None), &[(HH, -2), (VV, -2)]),
    (Step::Right(-1, 2), Ok(None), &[]),
    (Step::Down(-1, 2), Ok(None), &[(HH, -3), (VV, -3)]),
    (Step::Right(-1, 2), Ok(None), &[]),
    (Step::Down(-1, 2), Ok(None), &[(HH, -4), (VV, -4)]),
    (Step::Right(-1, 2), Ok(None), &[]),
    (Step::Down(-1, 2), Ok(None), &[(HH, -5), (VV, -5)]),
    (Step::Right(-1, 2), Ok(None), &[]),
    (Step::Down(-1, 2), Ok(None), &[(HH, -5), (VV, -5)]),
];

#[test]
fn drifts_by_two_dots_at_most(rt: HostRuntime) -> Result<(), Scale> {
    assert_follows(&rt, rt.alloc(), &DRIFTS)
}

// Each of w, x, y and z is moved by again. At a space of 0 a motion by 0 sets hh to h rounded, that
// is 3 to 2 dots, and vv to v.
static AGAIN: [Row; 16] = [
    (Step::Right(1, 2), Ok(None), &[]),
    (Step::Right(1, 2), Ok(None), &[]),
    (Step::Right(1, 2), Ok(None), &[]),
    (Step::Down(1, 2), Ok(None), &[]),
    (Step::Down(1, 2), Ok(None), &[]),
    (Step::Down(1, 2), Ok(None), &[]),
    (Step::W0(0), Ok(None), &[]),
    (
        Step::Y0(0),
        Ok(None),
        &[
            (H, 3),
            (V, 3),
            (W, 0),
            (X, 0),
            (Y, 0),
            (Z, 0),
            (HH, 2),
            (VV, 2),
        ],
    ),
    (Step::W(10, 2), Ok(None), &[]),
    (Step::X(20, 2), Ok(None), &[]),
    (Step::Y(30, 2), Ok(None), &[]),
    (Step::Z(40, 2), Ok(None), &[]),
    (Step::W0(2), Ok(None), &[]),
    (Step::X0(2), Ok(None), &[]),
    (Step::Y0(2), Ok(None), &[]),
    (
        Step::Z0(2),
        Ok(None),
        &[
            (H, 63),
            (V, 143),
            (W, 10),
            (X, 20),
            (Y, 30),
            (Z, 40),
            (HH, 32),
            (VV, 72),
        ],
    ),
];

#[test]
fn moves_again(rt: HostRuntime) -> Result<(), Scale> {
    assert_follows(&rt, rt.alloc(), &AGAIN)
}

// h and v go to 2147483647 and to -2147483647, and no farther. The pen is then as it was, w too.
static TOO_FAR: [Row; 6] = [
    (
        Step::W(-2147483648, 0),
        OVERFLOW,
        &[
            (H, 0),
            (V, 0),
            (W, 0),
            (X, 0),
            (Y, 0),
            (Z, 0),
            (HH, 0),
            (VV, 0),
        ],
    ),
    (Step::Right(2147483647, 0), Ok(None), &[]),
    (
        Step::Y(-2147483647, 0),
        Ok(None),
        &[
            (H, 2147483647),
            (V, -2147483647),
            (W, 0),
            (X, 0),
            (Y, -2147483647),
            (Z, 0),
            (HH, 1073741824),
            (VV, -1073741824),
        ],
    ),
    (Step::Right(1, 0), OVERFLOW, &[]),
    (Step::SetRule(1, 1), OVERFLOW, &[]),
    (
        Step::Down(-1, 0),
        OVERFLOW,
        &[
            (H, 2147483647),
            (V, -2147483647),
            (W, 0),
            (X, 0),
            (Y, -2147483647),
            (Z, 0),
            (HH, 1073741824),
            (VV, -1073741824),
        ],
    ),
];

#[test]
fn overflows(rt: HostRuntime) -> Result<(), Scale> {
    assert_follows(&rt, rt.alloc(), &TOO_FAR)
}
