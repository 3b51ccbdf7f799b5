//! Characters.
ghost use Rattle.std.specs.Prelude.{IfOk};
ghost use Rattle.drift_rules.specs.Bounds.{IsInReach};
ghost use Rattle.drift_rules.specs.Position.{value_of_flat};

use super::script::{Reply, Step, answer, half_a_dot};
use drift_rules::{Flat, Mark, Pen};
use outside::{FontKey, FontName};
use std::alloc::Global;
use std::sync::Arc;
use std::test::Fail;

// A character of width 6, that is 3 dots.
fn character(alloc: Global, put: bool) -> Result<Flat, Fail>
    ensures { IfOk result (λ flat. IsInReach (value_of_flat flat)) }
{
    let name = FontName::new(alloc, b"duo")?;
    let key = Arc::new(
        alloc,
        FontKey {
            area: 0,
            name,
            size: 128,
            design: 128,
        },
    )?;
    Ok(Flat::Char {
        key,
        code: 65,
        width: 6,
        put,
    })
}

// The answer to the character, with h, hh, v and vv after it.
fn stepped(alloc: Global, pen: &mut Pen, put: bool) -> Result<(Reply, [i64; 4]), Fail> {
    let told = pen.step(&character(alloc, put)?);
    let now = pen.registers();
    Ok((told, [now.h, now.hh, now.v, now.vv]))
}

const STANDS: Reply = Ok(Some(Mark::Char { hh: 10, vv: 15 }));

// One that is put is marked and moves nothing; one that is set is marked where it stands, and h
// grows by 6 and hh by 3.
#[test]
fn puts_and_sets_a_character(rt: HostRuntime) -> Result<(), Fail> {
    let mut pen = Pen::new(rt.alloc(), half_a_dot()?);
    let right = answer(&mut pen, Step::Right(20, 0));
    let down = answer(&mut pen, Step::Down(30, 0));
    let put = stepped(rt.alloc(), &mut pen, true)?;
    let set = stepped(rt.alloc(), &mut pen, false)?;
    assert_eq!(rt;
        (right, down, put, set),
        (
            Ok(None),
            Ok(None),
            (STANDS, [20, 10, 30, 15]),
            (STANDS, [26, 13, 30, 15]),
        )
    );
    Ok(())
}
