//! Where the bytes of the current level are.
ghost use Rattle.std.specs.Prelude.{◌≡◌, ◌≤◌, ◌+◌, [], drop, length, unwrap_or};
ghost use Rattle.dvi_commands.specs.Reading.{Reads};
ghost use Rattle.page_index.specs.Document as document;
ghost use Rattle.page_index.specs.Limits.{MAX_DOCUMENT_LENGTH};
ghost use Rattle.font_decode.specs.Fonts.{packet_of};
ghost use Rattle.vf_expand.specs.Expansion.{place_in};
ghost use Rattle.vf_expand.specs.Effects.{value_of_current, value_of_place};
ghost use Rattle.vf_expand.specs.Levels.{AreLevels, IsVirtual, context_of, place_at, position, text_in, level_text};

use crate::current::Current;
use crate::effect::Place;
use crate::outer_levels::{Level, OuterLevels};
use dvi_commands::Context;
use font_decode::{Decoded, Font};
use page_index::Index;

/// The bytes of a level, what their commands belong to, and the position of the page's own command
/// that is being expanded.
#[derive(Clone, Copy)]
pub struct CurrentLevel<'a> {
    pub text: &'a [u8],
    pub context: Context,
    pub place: Place<'a>,
    pub at: usize,
}

// The bytes of a packet; a packet that was entered is there.
fn packet_text(font: &Font, code: u8) -> &[u8]
    ensures { result.now ≡ unwrap_or (packet_of font.now code) [] }
{
    match font.packet(u32::from(code)) {
        Some(text) => text,
        None => &[],
    }
}

// A packet of the font that is current outside it.
fn packet_of(outside: &Level, code: u8, at: usize) -> CurrentLevel
    requires { IsVirtual (value_of_current outside.now.current) }
    ensures text { result.text.now ≡ text_in (value_of_current outside.now.current) code }
    ensures context { result.context ≡ Context.Packet }
    ensures place { (reading : document.Reading) → value_of_place result.place ≡ place_in reading
        (value_of_current outside.now.current) }
    ensures at { result.at ≡ at }
{
    let Current::Known(key, found) = &outside.current else {
        unreachable!();
    };
    let decoded: &Decoded = found;
    match decoded {
        Decoded::Font(font) => CurrentLevel {
            text: packet_text(font, code),
            context: Context::Packet,
            place: Place::Packet(key, font),
            at,
        },
        Decoded::Bare(_) | Decoded::Fault(_) => unreachable!(),
    }
}

/// The page, or the packet that is read.
#[inline(always)]
pub fn current_level<'a>(
    index: &'a Index<'a>,
    bytes: &'a [u8],
    start: usize,
    level: &Level,
    outer: &'a OuterLevels,
    at: usize,
) -> CurrentLevel<'a>
    requires levels { AreLevels bytes.now level.now outer.now }
    requires room { start + length bytes.now ≤ MAX_DOCUMENT_LENGTH }
    ensures text { result.text.now ≡ level_text bytes.now level.now outer.now }
    ensures context { result.context ≡ context_of outer.now }
    ensures place { value_of_place result.place ≡ place_at index.now.reading outer.now }
    ensures at { result.at ≡ position start at level.now outer.now }
    ensures inside { level.now.pos ≤ length result.text.now }
    ensures readable { Reads result.context (drop level.now.pos result.text.now) }
{
    match outer.top() {
        Some(outside) => packet_of(outside, level.code, at),
        None => CurrentLevel {
            text: bytes,
            context: Context::Page,
            place: Place::Page(index),
            at: start + level.pos,
        },
    }
}
