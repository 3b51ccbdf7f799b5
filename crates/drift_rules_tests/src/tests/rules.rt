//! Rules.
use super::script::{H, HH, Row, Step, V, VV, W, X, Y, Z, assert_follows};
use drift_rules::Mark;
use pixel_round::Scale;

// A rule of height 4 and width 6 has 2 rows and 3 columns, up from the present place. Where it is
// set, h grows by 6 and hh by 3; a width of -3 is -1.5 dots, of which hh takes -1, and nothing is
// marked.
static RULES: [Row; 5] = [
    (Step::Down(20, 0), Ok(None), &[]),
    (
        Step::SetRule(4, 6),
        Ok(Some(Mark::Rule {
            x: 0,
            y: 9,
            w: 3,
            h: 2,
        })),
        &[(H, 6), (HH, 3)],
    ),
    (Step::SetRule(4, -3), Ok(None), &[(H, 3), (HH, 2)]),
    (Step::PutRule(0, 6), Ok(None), &[]),
    (
        Step::Skip,
        Ok(None),
        &[
            (H, 3),
            (V, 20),
            (W, 0),
            (X, 0),
            (Y, 0),
            (Z, 0),
            (HH, 2),
            (VV, 10),
        ],
    ),
];

#[test]
fn sets_rules(rt: HostRuntime) -> Result<(), Scale> {
    assert_follows(&rt, rt.alloc(), &RULES)
}
