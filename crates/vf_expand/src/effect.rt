//! What one command gives, by where it is and which font is current.
ghost use Rattle.std.specs.Prelude.{◌≡◌, ℕ, IfOk, IfSome, IsNone};
ghost use Rattle.std.specs.Arc.{arc_value};
ghost use Rattle.dvi_commands.specs.Spelling.{value_of_command};
ghost use Rattle.font_decode.specs.Fonts.{first_local_of};
ghost use Rattle.drift_rules.specs.Bounds.{IsNumber};
ghost use Rattle.vf_expand.specs.Course.{dimension, no_local};
ghost use Rattle.vf_expand.specs.Faults.{value_of_fault};
ghost use Rattle.vf_expand.specs.Effects.{HasEffect, ChangeHasEffect, EffectFits, GivesNoFlat, HasDimensions, HasKey, IsDimension, value_of_current, value_of_place};
ghost use Rattle.vf_expand.specs.declared.effect.Effect.TheVariants as effect;

use crate::character::character;
use crate::current::{Current, space_of};
use crate::faults::PageFault;
use crate::keys::PageKeys;
use crate::outer_levels::Level;
use drift_rules::Flat;
use dvi_commands::Command;
use fix_word::scale;
use font_decode::Font;
use outside::FontKey;
use page_index::Index;
use std::alloc::AllocError as NoMemory;
use std::sync::Arc;

/// Where a command is: on a page, or in a packet of the virtual font with this key.
#[derive(Clone, Copy)]
pub enum Place<'a> {
    Page(&'a Index<'a>),
    Packet(&'a Arc<FontKey>, &'a Font),
}

/// What a command gives: a flat command, that of a character, a new current font, a look-up, the
/// beginning of a packet, a lack with how far its character moves, or a stop.
#[derive(Drop)]
pub enum Effect {
    Flat(Flat),
    Char(Flat),
    Change(Arc<FontKey>),
    Ask(Arc<FontKey>),
    Enter(Level),
    Lack(PageFault, Option<i64>),
    Stop(PageFault),
}

// A dimension in DVI units. In a packet it is a fix_word at the virtual font's size.
#[inline(always)]
fn dimension_of(place: Place, z: i32) -> i64
    requires { IsDimension (value_of_place place) z }
    ensures value { result ≡ dimension (value_of_place place.entry) z }
    ensures fits { IsNumber result }
{
    match place {
        Place::Page(_) => i64::from(z),
        Place::Packet(_, font) => scale(z, font.size()),
    }
}

// A font change in a packet to a number that no local font has.
#[inline(never)]
fn no_local(key: &Arc<FontKey>, font: &Font, number: i32) -> Result<PageFault, NoMemory>
    ensures { IfOk result (λ fault. value_of_fault fault ≡ no_local (arc_value key.now)
        (first_local_of font.now) number) }
{
    let key = Arc::try_clone(key)?;
    match font.first_local() {
        Some(_) => Ok(PageFault::NoLocalFont(key, Some(number))),
        None => Ok(PageFault::NoLocalFont(key, None)),
    }
}

// A font change.
#[inline(never)]
fn change(
    keys: &mut PageKeys,
    place: Place,
    current: &Current,
    number: i32,
) -> Result<Effect, NoMemory>
    ensures has_effect { IfOk result (λ effect. (n : ℕ)
        → ChangeHasEffect (value_of_place place.entry) n (value_of_current current.now) number
        effect) }
    ensures fits { IfOk result EffectFits }
{
    match place {
        Place::Page(index) => match index.font(number) {
            Some(key) => Ok(Effect::Change(keys.own(key)?)),
            None => Ok(Effect::Stop(PageFault::NoFont(number))),
        },
        Place::Packet(key, font) => match font.local(number) {
            Some(local) => Ok(Effect::Change(keys.own(local)?)),
            None => Ok(Effect::Stop(no_local(key, font, number)?)),
        },
    }
}

/// The flat command that a command gives by itself: `None` for a character and a font change.
#[inline(always)]
pub fn flat_of(place: Place, current: &Current, command: &Command) -> Option<Flat>
    requires key { HasKey (value_of_current current.now) }
    requires dimensions { HasDimensions (value_of_place place) (value_of_command command.now) }
    ensures has_effect { IfSome result (λ flat. (n : ℕ) → HasEffect (value_of_place place.entry) n
        (value_of_current current.now) (value_of_command command.now) (effect.Flat flat)) }
    ensures fits { IfSome result (λ flat. EffectFits (effect.Flat flat)) }
    ensures none { IsNone result → GivesNoFlat (value_of_command command.now) }
{
    let space = space_of(current);
    let flat = match command {
        Command::Set(_) | Command::Put(_) | Command::Font(_) => return None,
        Command::SetRule { height, width } => Flat::Rule {
            height: dimension_of(place, *height),
            width: dimension_of(place, *width),
            put: false,
        },
        Command::PutRule { height, width } => Flat::Rule {
            height: dimension_of(place, *height),
            width: dimension_of(place, *width),
            put: true,
        },
        Command::Right(by) => Flat::Right {
            by: dimension_of(place, *by),
            space,
        },
        Command::W(by) => Flat::W {
            by: dimension_of(place, *by),
            space,
        },
        Command::X(by) => Flat::X {
            by: dimension_of(place, *by),
            space,
        },
        Command::Down(by) => Flat::Down {
            by: dimension_of(place, *by),
            space,
        },
        Command::Y(by) => Flat::Y {
            by: dimension_of(place, *by),
            space,
        },
        Command::Z(by) => Flat::Z {
            by: dimension_of(place, *by),
            space,
        },
        Command::W0 => Flat::W0 { space },
        Command::X0 => Flat::X0 { space },
        Command::Y0 => Flat::Y0 { space },
        Command::Z0 => Flat::Z0 { space },
        Command::Push => Flat::Push,
        Command::Pop => Flat::Pop,
        _ => Flat::Skip,
    };
    Some(flat)
}

/// What a command gives, where n packets may be nested.
#[inline(always)]
pub fn effect_of(
    keys: &mut PageKeys,
    place: Place,
    room: usize,
    current: &Current,
    command: &Command,
) -> Result<Effect, NoMemory>
    requires key { HasKey (value_of_current current.now) }
    requires dimensions { HasDimensions (value_of_place place) (value_of_command command.now) }
    ensures has_effect { IfOk result (HasEffect (value_of_place place.entry) room
        (value_of_current current.now) (value_of_command command.now)) }
    ensures fits { IfOk result EffectFits }
{
    match command {
        Command::Set(code) => character(keys, place, room, current, *code, false),
        Command::Put(code) => character(keys, place, room, current, *code, true),
        Command::Font(number) => change(keys, place, current, *number),
        _ => match flat_of(place, current, command) {
            Some(flat) => Ok(Effect::Flat(flat)),
            None => unreachable!(),
        },
    }
}
