//! A thousand sets of registers, the most that may be saved.
use super::script::{Reply, Step, answer, half_a_dot};
use drift_rules::{Pen, PenFault, PenStop};
use pixel_round::Scale;

const DEEP: Reply = Err(PenStop::Fault(PenFault::StackDeep));

const EMPTY: Reply = Err(PenStop::Fault(PenFault::StackEmpty));

const LEFT: Reply = Err(PenStop::Fault(PenFault::StackLeft));

// The first of n times at which two steps have another answer than `Ok(None)`, with the answers.
fn other_answers(pen: &mut Pen, n: u32, first: Step, second: Step) -> Option<(u32, Reply, Reply)> {
    for time in 0..n {
        let (one, two) = (answer(pen, first), answer(pen, second));
        if one != Ok(None) || two != Ok(None) {
            return Some((time, one, two));
        }
    }
    None
}

// The first of 1000 pops that leads elsewhere than two units to the left of the one before, or
// before which the page could end, with the answers and h.
fn other_place(pen: &mut Pen) -> Option<(u32, Reply, Reply, i64)> {
    for depth in 0..1000u32 {
        let (end, pop) = (answer(pen, Step::Finish), answer(pen, Step::Pop));
        let h = pen.registers().h;
        if end != LEFT || pop != Ok(None) || h != i64::from(1998 - 2 * depth) {
            return Some((depth, end, pop, h));
        }
    }
    None
}

// 1000 places are saved, each two units to the right of the one before, and no more. They come back
// last first, and then none is left.
#[test]
fn saves_a_thousand_places(rt: HostRuntime) -> Result<(), Scale> {
    let mut pen = Pen::new(rt.alloc(), half_a_dot()?);
    let other = other_answers(&mut pen, 1000, Step::Push, Step::Right(2, 0));
    let deep = answer(&mut pen, Step::Push);
    let now = pen.registers();
    assert_eq!(rt; (other, deep, now.h, now.hh), (None, DEEP, 2000, 1000));
    let other = other_place(&mut pen);
    let end = answer(&mut pen, Step::Finish);
    let empty = answer(&mut pen, Step::Pop);
    let again = answer(&mut pen, Step::Finish);
    assert_eq!(rt;
        (other, end, empty, again),
        (None, Ok(None), EMPTY, Ok(None))
    );
    Ok(())
}

// Packets, one inside the other, are saved on the one stack of 1000 sets.
#[test]
fn packets_share_the_stack(rt: HostRuntime) -> Result<(), Scale> {
    let mut pen = Pen::new(rt.alloc(), half_a_dot()?);
    let entered = other_answers(&mut pen, 500, Step::Push, Step::Enter);
    let deep = answer(&mut pen, Step::Enter);
    let left = other_answers(&mut pen, 500, Step::Leave, Step::Leave);
    let empty = answer(&mut pen, Step::Leave);
    assert_eq!(rt; (entered, deep, left, empty), (None, DEEP, None, EMPTY));
    Ok(())
}
