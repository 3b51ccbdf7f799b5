//! Where a packet begins.
ghost use Rattle.std.specs.Prelude.{◌≡◌, ◌∷◌, ◌≤◌, ◌-◌, length, IfOk, IsFalse, IsTrue, OnErr};
ghost use Rattle.vf_expand.specs.Course as course;
ghost use Rattle.vf_expand.specs.Effects.{CharacterHasEffect, EffectFits, value_of_current};
ghost use Rattle.vf_expand.specs.Limits as limits;
ghost use Rattle.vf_expand.specs.declared.effect.Effect.TheVariants as effect;

use crate::character::entry;
use crate::keys::PageKeys;
use crate::outer_levels::{Level, MAX_DEPTH, OuterLevels};
use std::alloc::AllocError as NoMemory;

/// Enters the packet of a character whose command ends at `end`, where its font is a virtual one
/// that was found. Whether it did: else nothing has changed.
#[inline(never)]
pub fn enter_packet(
    keys: &mut PageKeys,
    level: &mut Level,
    outer: &mut OuterLevels,
    code: i32,
    put: bool,
    end: usize,
) -> Result<bool, NoMemory>
    requires deep { length outer.old ≤ limits.MAX_DEPTH }
    ensures outer { IfOk result (λ entered. IsTrue entered
        → outer.new ≡ record level.old { pos = end } ∷ outer.old) }
    ensures enters { IfOk result (λ entered. IsTrue entered → (place : course.Place)
        → CharacterHasEffect place (limits.MAX_DEPTH - length outer.old)
        (value_of_current level.old.current) code put (effect.Enter level.new)) }
    ensures fits { IfOk result (λ entered. IsTrue entered
        → EffectFits (effect.Enter level.new)) }
    ensures none { IfOk result (λ entered. IsFalse entered
        → (outer.new ≡ outer.old) × (level.new ≡ level.old)) }
    ensures err { OnErr result ((outer.new ≡ outer.old) × (level.new ≡ level.old)) }
{
    let room = MAX_DEPTH - outer.len();
    let Some(inner) = entry(keys, room, &level.current, code, put)? else {
        return Ok(false);
    };
    outer.enter(level, inner, end)?;
    Ok(true)
}
