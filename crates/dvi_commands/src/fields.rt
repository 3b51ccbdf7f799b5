//! A command from its opcode, its fields and its text, where all of these are there.

ghost use Rattle.std.specs.Prelude.{◌≡◌, ◌≤◌, ◌+◌, ◌-◌, ◌∷◌, ◌++◌, [], false, IfSome, length, slice_index, slice_range};
ghost use Rattle.big_endian.specs.Numbers.{IsSigned, number_bytes};
ghost use Rattle.dvi_commands.specs.Refusal.{LAST_OPCODE, fixed_size, gives_negative_length, text_size};
ghost use Rattle.dvi_commands.specs.Spelling.{IsOperand, Spells, quad, value_of_command};

use crate::command::{Command, FontDef};
use big_endian::{signed, unsigned};

// The signed number in the four bytes from a place on.
fn signed_quad(fields: &[u8], at: usize) -> i32
    requires { at + 4 ≤ length fields.now }
    ensures fits { IsSigned 4 result }
    ensures written { quad result ≡ slice_range fields.now at (at + 4) }
{
    signed(&fields[at..at + 4])
}

// The number of a character or a font: up to three bytes spell it unsigned, four bytes signed.
fn code(bytes: &[u8]) -> i32
    requires some { 1 ≤ length bytes.now }
    requires few { length bytes.now ≤ 4 }
    ensures fits { IsOperand (length bytes.now) result }
    ensures written { number_bytes (length bytes.now) result ≡ bytes.now }
{
    if bytes.len() == 4 {
        signed(bytes)
    } else {
        unsigned(bytes) as i32
    }
}

// The ten counts of a page and the pointer to the page before.
fn beginning_of_page<'a>(fields: &[u8]) -> Command<'a>
    requires { length fields.now ≡ 44 }
    ensures { Spells (value_of_command result) (139 ∷ fields.now) }
{
    Command::Bop {
        counts: [
            signed_quad(fields, 0),
            signed_quad(fields, 4),
            signed_quad(fields, 8),
            signed_quad(fields, 12),
            signed_quad(fields, 16),
            signed_quad(fields, 20),
            signed_quad(fields, 24),
            signed_quad(fields, 28),
            signed_quad(fields, 32),
            signed_quad(fields, 36),
        ],
        back: signed_quad(fields, 40),
    }
}

// The definition of a font, whose number has the bytes that the other fields leave.
fn definition<'a>(fields: &[u8], name: &'a [u8]) -> Command<'a>
    requires some { 15 ≤ length fields.now }
    requires few { length fields.now ≤ 18 }
    requires text { length name.now ≡ slice_index fields.now (length fields.now - 2)
        + slice_index fields.now (length fields.now - 1) }
    ensures { Spells (value_of_command result) ((228 + length fields.now) ∷ fields.now
        ++ name.now) }
{
    let (number, others) = fields.split_at(fields.len() - 14);
    Command::Define(FontDef {
        number: code(number),
        check: unsigned(&others[..4]),
        size: signed_quad(others, 4),
        design: signed_quad(others, 8),
        area: others[12],
        name,
    })
}

fn preamble<'a>(fields: &[u8], text: &'a [u8]) -> Command<'a>
    requires whole { length fields.now ≡ 14 }
    requires text { length text.now ≡ slice_index fields.now 13 }
    ensures { Spells (value_of_command result) (247 ∷ fields.now ++ text.now) }
{
    Command::Pre {
        id: fields[0],
        num: signed_quad(fields, 1),
        den: signed_quad(fields, 5),
        mag: signed_quad(fields, 9),
        text,
    }
}

fn postamble<'a>(fields: &[u8]) -> Command<'a>
    requires { length fields.now ≡ 28 }
    ensures { Spells (value_of_command result) (248 ∷ fields.now) }
{
    Command::Post {
        back: signed_quad(fields, 0),
        num: signed_quad(fields, 4),
        den: signed_quad(fields, 8),
        mag: signed_quad(fields, 12),
        tallest: signed_quad(fields, 16),
        widest: signed_quad(fields, 20),
        deepest: unsigned(&fields[24..26]) as u16,
        pages: unsigned(&fields[26..28]) as u16,
    }
}

/// The character with an opcode of its own, which has no fields.
#[inline(always)]
pub(crate) fn small_character<'a>(opcode: u8) -> Command<'a>
    requires { opcode ≤ 127 }
    ensures { Spells (value_of_command result) (opcode ∷ []) }
{
    Command::Set(i32::from(opcode))
}

/// The command with an opcode that is a whole command and no character, or `None` for any other.
#[inline(always)]
pub(crate) fn command_alone<'a>(opcode: u8) -> Option<Command<'a>>
    ensures { IfSome result (λ c. Spells (value_of_command c) (opcode ∷ [])) }
{
    match opcode {
        141 => Some(Command::Push),
        142 => Some(Command::Pop),
        147 => Some(Command::W0),
        152 => Some(Command::X0),
        161 => Some(Command::Y0),
        166 => Some(Command::Z0),
        171..=234 => Some(Command::Font(i32::from(opcode - 171))),
        _ => None,
    }
}

/// The command with an opcode.
// Inlined, so that a caller has the fields of a command without a copy of the largest one.
#[inline(always)]
pub(crate) fn command_with<'a>(opcode: u8, fields: &[u8], text: &'a [u8]) -> Command<'a>
    requires known { opcode ≤ LAST_OPCODE }
    requires whole { length fields.now ≡ fixed_size opcode }
    requires text { length text.now ≡ text_size opcode fields.now }
    requires not_negative { gives_negative_length opcode fields.now ≡ false }
    ensures { Spells (value_of_command result) (opcode ∷ fields.now ++ text.now) }
{
    match opcode {
        0..=127 => Command::Set(i32::from(opcode)),
        128..=131 => Command::Set(code(fields)),
        132 => Command::SetRule {
            height: signed_quad(fields, 0),
            width: signed_quad(fields, 4),
        },
        133..=136 => Command::Put(code(fields)),
        137 => Command::PutRule {
            height: signed_quad(fields, 0),
            width: signed_quad(fields, 4),
        },
        138 => Command::Nop,
        139 => beginning_of_page(fields),
        140 => Command::Eop,
        141 => Command::Push,
        142 => Command::Pop,
        143..=146 => Command::Right(signed(fields)),
        147 => Command::W0,
        148..=151 => Command::W(signed(fields)),
        152 => Command::X0,
        153..=156 => Command::X(signed(fields)),
        157..=160 => Command::Down(signed(fields)),
        161 => Command::Y0,
        162..=165 => Command::Y(signed(fields)),
        166 => Command::Z0,
        167..=170 => Command::Z(signed(fields)),
        171..=234 => Command::Font(i32::from(opcode - 171)),
        235..=238 => Command::Font(code(fields)),
        239..=242 => Command::Special(text),
        243..=246 => definition(fields, text),
        247 => preamble(fields, text),
        248 => postamble(fields),
        _ => Command::PostPost {
            post: signed_quad(fields, 0),
            id: fields[4],
        },
    }
}
