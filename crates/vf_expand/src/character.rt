//! What a character gives, by the font that is current.
ghost use Rattle.std.specs.Prelude.{◌≡◌, ◌<◌, ℕ, ℤ, Bool, pos, IfOk, IfSome, IsNone, Some, unsigned_abs};
ghost use Rattle.std.specs.Arc.{arc_value};
ghost use Rattle.drift_rules.specs.Bounds.{IsNumber};
ghost use Rattle.font_decode.specs.declared.font_or_fault.Decoded.TheVariants as decoded;
ghost use Rattle.vf_expand.specs.Course.{advance_of, first_font, no_font};
ghost use Rattle.vf_expand.specs.Faults.{is_missing, value_of_fault};
ghost use Rattle.vf_expand.specs.Course as course;
ghost use Rattle.vf_expand.specs.Expansion.{font_of, glyph_in};
ghost use Rattle.vf_expand.specs.declared.effect.Effect.TheVariants as effect;
ghost use Rattle.vf_expand.specs.Effects.{CharacterHasEffect, EffectFits, DecodedHasEffect, HasKey, SetsNoPackedChar, SetsPackedChar, VirtualHasEffect, value_of_current, value_of_place};

use crate::current::Current;
use crate::effect::{Effect, Place};
use crate::faults::PageFault;
use crate::keys::PageKeys;
use crate::outer_levels::Level;
use drift_rules::Flat;
use font_decode::{Decoded, FileKind, Font, FontFault};
use outside::FontKey;
use pk_runs::Glyph;
use std::alloc::AllocError as NoMemory;
use std::sync::Arc;

// The font that is current as a packet begins: the first local font.
fn first_current(keys: &mut PageKeys, font: &Font) -> Result<Current, NoMemory>
    ensures first { IfOk result (λ current. value_of_current current ≡ first_font font.now) }
    ensures key { IfOk result (λ current. HasKey (value_of_current current)) }
{
    let Some(number) = font.first_local() else {
        return Ok(Current::NoFont);
    };
    match font.local(number) {
        Some(key) => Ok(Current::Chosen(keys.own_first(key)?)),
        None => Ok(Current::NoFont),
    }
}

// The level of a packet at its first command.
#[inline(always)]
fn first_level(
    keys: &mut PageKeys,
    font: &Font,
    code: u8,
    advance: Option<i64>,
) -> Result<Level, NoMemory>
    ensures level { IfOk result (λ level. (level.code ≡ code) × (level.pos ≡ 0)
        × (level.advance ≡ advance)) }
    ensures first { IfOk result (λ level.
        value_of_current level.current ≡ first_font font.now) }
    ensures key { IfOk result (λ level. HasKey (value_of_current level.current)) }
{
    Ok(Level {
        code,
        pos: 0,
        advance,
        current: first_current(keys, font)?,
    })
}

// A character of a virtual font, where n packets may be nested.
#[inline(never)]
fn virtual_character(
    keys: &mut PageKeys,
    room: usize,
    key: &Arc<FontKey>,
    font: &Font,
    code: i32,
    advance: Option<i64>,
) -> Result<Effect, NoMemory>
    requires byte { (n : ℕ) × (code ≡ pos n) × (n < 256) }
    requires advance { IfSome advance IsNumber }
    ensures has_effect { IfOk result (VirtualHasEffect room (arc_value key.now) font.now code
        advance) }
    ensures fits { IfOk result EffectFits }
{
    if room == 0 {
        return Ok(Effect::Stop(PageFault::Depth(Arc::try_clone(key)?, code)));
    }
    if font.packet(code as u32).is_none() {
        return Ok(Effect::Lack(PageFault::NoPacket(Arc::try_clone(key)?, code), advance));
    }
    Ok(Effect::Enter(first_level(keys, font, code as u8, advance)?))
}

// How far a character moves after its packet, or in its place: not at all where it is put.
#[inline(always)]
fn advance_of(width: i64, put: bool) -> Option<i64>
    requires { IsNumber width }
    ensures advance { result ≡ advance_of width put }
    ensures fits { IfSome result IsNumber }
{
    if put { None } else { Some(width) }
}

// A character of a bare font, whose glyphs are missing.
#[inline(never)]
fn char_of_bare(key: &Arc<FontKey>, font: &Font, code: i32, put: bool) -> Result<Effect, NoMemory>
    ensures has_effect { IfOk result (λ effect. (n : ℕ)
        → DecodedHasEffect n (arc_value key.now) (decoded.Bare font.now) code put effect) }
    ensures fits { IfOk result EffectFits }
{
    let fault = PageFault::Font(Arc::try_clone(key)?, FontFault::Missing(FileKind::Pk));
    let advance = match font.width(code) {
        Some(width) => advance_of(width, put),
        None => None,
    };
    Ok(Effect::Lack(fault, advance))
}

// Whether a font's fault is that files of it aren't there.
#[inline(always)]
fn is_missing(fault: &FontFault) -> bool
    ensures { result ≡ is_missing fault.now }
{
    matches!(fault, FontFault::Missing(FileKind::Tfm | FileKind::Pk))
}

// A character of a font with a fault.
#[inline(never)]
fn char_of_fault(key: &Arc<FontKey>, fault: &FontFault) -> Result<Effect, NoMemory>
    ensures has_effect { IfOk result (λ effect. (n : ℕ) (code : ℤ) (put : Bool)
        → DecodedHasEffect n (arc_value key.now) (decoded.Fault fault.now) code put effect) }
    ensures fits { IfOk result EffectFits }
{
    let found = PageFault::Font(Arc::try_clone(key)?, *fault);
    if is_missing(fault) {
        return Ok(Effect::Lack(found, None));
    }
    Ok(Effect::Stop(found))
}

// A character of a font that has files.
#[inline(always)]
fn char_of_font(
    keys: &mut PageKeys,
    room: usize,
    key: &Arc<FontKey>,
    font: &Font,
    code: i32,
    put: bool,
) -> Result<Effect, NoMemory>
    ensures has_effect { IfOk result
        (DecodedHasEffect room (arc_value key.now) (decoded.Font font.now) code put) }
    ensures fits { IfOk result EffectFits }
{
    let Some(width) = font.width(code) else {
        return Ok(Effect::Lack(PageFault::NoCharacter(Arc::try_clone(key)?, code), None));
    };
    if font.is_virtual() {
        return virtual_character(keys, room, key, font, code, advance_of(width, put));
    }
    if font.glyph(code as u32).is_none() {
        let fault = PageFault::NoGlyph(Arc::try_clone(key)?, code);
        return Ok(Effect::Lack(fault, advance_of(width, put)));
    }
    Ok(Effect::Char(Flat::Char {
        key: Arc::try_clone(key)?,
        code: code as u8,
        width,
        put,
    }))
}

// A character of the font that was found.
#[inline(always)]
fn char_of_decoded(
    keys: &mut PageKeys,
    room: usize,
    key: &Arc<FontKey>,
    decoded: &Decoded,
    code: i32,
    put: bool,
) -> Result<Effect, NoMemory>
    ensures has_effect { IfOk result
        (DecodedHasEffect room (arc_value key.now) decoded.now code put) }
    ensures fits { IfOk result EffectFits }
{
    match decoded {
        Decoded::Fault(fault) => char_of_fault(key, fault),
        Decoded::Bare(font) => char_of_bare(key, font, code, put),
        Decoded::Font(font) => char_of_font(keys, room, key, font, code, put),
    }
}

/// The packet that a character of a virtual font that was found begins, where n packets may be
/// nested. `None` where it gives anything else.
#[inline(always)]
pub fn entry(
    keys: &mut PageKeys,
    room: usize,
    current: &Current,
    code: i32,
    put: bool,
) -> Result<Option<Level>, NoMemory>
    ensures enters { IfOk result (λ entry. IfSome entry (λ level. (place : course.Place)
        → CharacterHasEffect place room (value_of_current current.now) code put
        (effect.Enter level))) }
    ensures fits { IfOk result (λ entry. IfSome entry (λ level.
        EffectFits (effect.Enter level))) }
{
    let Current::Known(_, found) = current else {
        return Ok(None);
    };
    let decoded: &Decoded = found;
    let Decoded::Font(font) = decoded else {
        return Ok(None);
    };
    let Some(width) = font.width(code) else {
        return Ok(None);
    };
    if room == 0 || !font.is_virtual() || font.packet(code as u32).is_none() {
        return Ok(None);
    }
    Ok(Some(first_level(keys, font, code as u8, advance_of(width, put))?))
}

// A character where no font is current.
#[inline(never)]
fn no_font(place: Place) -> Result<PageFault, NoMemory>
    ensures { IfOk result (λ fault. value_of_fault fault ≡ no_font (value_of_place place.entry)) }
{
    match place {
        Place::Page(_) => Ok(PageFault::NoCurrentFont),
        Place::Packet(key, _) => Ok(PageFault::NoLocalFont(Arc::try_clone(key)?, None)),
    }
}

/// The key of a character's font, the character's width in DVI units, and its glyph.
#[derive(Clone, Copy)]
pub struct CharInFont<'a> {
    pub key: &'a Arc<FontKey>,
    pub width: i64,
    pub glyph: &'a Glyph,
}

/// A character that is set or put in a packed font that was found. `None` where no font was found
/// or it has a fault or is bare, in a virtual font, and where the font has no width or no glyph for
/// the code.
#[inline(always)]
pub fn packed_char(current: &Current, code: i32) -> Option<CharInFont>
    ensures sets { IfSome result (λ found.
        SetsPackedChar (value_of_current current.now) code (arc_value found.key.now) found.width) }
    ensures glyph { IfSome result (λ found.
        glyph_in (font_of (value_of_current current.now)) (unsigned_abs code)
        ≡ Some found.glyph.now) }
    ensures number { IfSome result (λ found. IsNumber found.width) }
    ensures byte { IfSome result (λ _. (n : ℕ) × (code ≡ pos n) × (n < 256)) }
    ensures none { IsNone result → SetsNoPackedChar (value_of_current current.now) code }
{
    let Current::Known(key, found) = current else {
        return None;
    };
    let decoded: &Decoded = found;
    let Decoded::Font(font) = decoded else {
        return None;
    };
    if font.is_virtual() {
        return None;
    }
    let width = font.width(code)?;
    let glyph = font.glyph(code as u32)?;
    Some(CharInFont { key, width, glyph })
}

/// What a character gives, where n packets may be nested.
#[inline(always)]
pub fn character(
    keys: &mut PageKeys,
    place: Place,
    room: usize,
    current: &Current,
    code: i32,
    put: bool,
) -> Result<Effect, NoMemory>
    requires { HasKey (value_of_current current.now) }
    ensures has_effect { IfOk result (CharacterHasEffect (value_of_place place.entry) room
        (value_of_current current.now) code put) }
    ensures fits { IfOk result EffectFits }
{
    match current {
        Current::NoFont => Ok(Effect::Stop(no_font(place)?)),
        Current::Chosen(key) => Ok(Effect::Ask(Arc::try_clone(key)?)),
        Current::Known(key, font) => char_of_decoded(keys, room, key, font, code, put),
    }
}
