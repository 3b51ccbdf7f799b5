//! What the commands mark.

ghost use Rattle.std.specs.Prelude.{◌≡◌, false, IfSome};
ghost use Rattle.drift_rules.specs.Position.{value_of_flat, Rule};
ghost use Rattle.drift_rules.specs.Marks.{mark_of};
ghost use Rattle.drift_rules.specs.Bounds.{AreHeld, IsInReach, IsNumber, IsPaintable};

use crate::flat::{Flat, Mark, Registers};
use pixel_round::Conv;

// The mark of a command, at the registers before it.
#[inline(always)]
pub(crate) fn mark_at(conv: &Conv, now: Registers, flat: &Flat) -> Option<Mark>
    requires held { AreHeld conv.now now }
    requires reach { IsInReach (value_of_flat flat.now) }
    ensures value { result ≡ mark_of conv.now now (value_of_flat flat.now) }
    ensures paintable { IfSome result IsPaintable }
{
    match flat {
        Flat::Char { .. } => Some(Mark::Char {
            hh: now.hh,
            vv: now.vv,
        }),
        Flat::Rule { height, width, .. } => rule_at(conv, now, *height, *width),
        _ => None,
    }
}

// The rectangle of a rule that has its lower left corner at the present place, where both of its
// sides are above zero.
#[inline(never)]
fn rule_at(conv: &Conv, now: Registers, height: i64, width: i64) -> Option<Mark>
    requires held { AreHeld conv.now now }
    requires height { IsNumber height }
    requires width { IsNumber width }
    ensures value { result ≡ mark_of conv.now now (Rule height width false) }
    ensures paintable { IfSome result IsPaintable }
{
    if height <= 0 || width <= 0 {
        return None;
    }
    let rows = conv.ceil(height);
    Some(Mark::Rule {
        x: now.hh,
        y: now.vv - rows + 1,
        w: conv.ceil(width),
        h: rows,
    })
}
