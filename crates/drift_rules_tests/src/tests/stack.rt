//! Registers that are saved and restored.
use super::script::{H, HH, Reply, Row, Step, V, VV, W, X, Y, Z, assert_follows};
use drift_rules::{PenFault, PenStop};
use pixel_round::Scale;

// At h = 6 the rounded column is 3, and motions of 1, 3, 1 and 1 units in a font of a wide space
// have led to column 5. At v = 14 the rounded row is 7, and 5, 7, 1 and 1 units have led to row 9.
// A pop gives back both, with w, x, y and z, after motions that changed all eight, and w moves on
// from there as it was: by 1 to h = 7, and to column 6.
static ALL_EIGHT: [Row; 15] = [
    (Step::W(1, 20), Ok(None), &[]),
    (Step::X(3, 20), Ok(None), &[]),
    (Step::Right(1, 20), Ok(None), &[]),
    (Step::Right(1, 20), Ok(None), &[]),
    (Step::Y(5, 20), Ok(None), &[]),
    (Step::Z(7, 20), Ok(None), &[]),
    (Step::Down(1, 20), Ok(None), &[]),
    (
        Step::Down(1, 20),
        Ok(None),
        &[
            (H, 6),
            (V, 14),
            (W, 1),
            (X, 3),
            (Y, 5),
            (Z, 7),
            (HH, 5),
            (VV, 9),
        ],
    ),
    (
        Step::Push,
        Ok(None),
        &[
            (H, 6),
            (V, 14),
            (W, 1),
            (X, 3),
            (Y, 5),
            (Z, 7),
            (HH, 5),
            (VV, 9),
        ],
    ),
    (Step::W(100, 0), Ok(None), &[]),
    (Step::X(200, 0), Ok(None), &[]),
    (Step::Y(300, 0), Ok(None), &[]),
    (
        Step::Z(400, 0),
        Ok(None),
        &[
            (H, 306),
            (V, 714),
            (W, 100),
            (X, 200),
            (Y, 300),
            (Z, 400),
            (HH, 153),
            (VV, 357),
        ],
    ),
    (
        Step::Pop,
        Ok(None),
        &[
            (H, 6),
            (V, 14),
            (W, 1),
            (X, 3),
            (Y, 5),
            (Z, 7),
            (HH, 5),
            (VV, 9),
        ],
    ),
    (Step::W0(20), Ok(None), &[(H, 7), (HH, 6)]),
];

#[test]
fn pop_gives_back_all_eight(rt: HostRuntime) -> Result<(), Scale> {
    assert_follows(&rt, rt.alloc(), &ALL_EIGHT)
}

const LEFT: Reply = Err(PenStop::Fault(PenFault::StackLeft));

// At a page's end one place is left.
static ENDS: [Row; 6] = [
    (Step::Finish, Ok(None), &[]),
    (Step::Push, Ok(None), &[]),
    (Step::Finish, LEFT, &[]),
    (Step::Push, Ok(None), &[]),
    (Step::Pop, Ok(None), &[]),
    (Step::Finish, LEFT, &[]),
];

#[test]
fn finds_what_is_left(rt: HostRuntime) -> Result<(), Scale> {
    assert_follows(&rt, rt.alloc(), &ENDS)
}
