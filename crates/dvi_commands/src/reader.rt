//! Reading one command at a place of bytes.

ghost use Rattle.std.specs.Prelude.{◌≡◌, ◌≤◌, ◌<◌, ◌+◌, ◌-◌, ◌∷◌, ◌++◌, ◌↔◌, ℕ, List, length, drop, slice_index, slice_range, Some, IsTrue, IfOk, IfErr, IfSome, IsNone, IsOkAnd};
ghost use Rattle.dvi_commands.specs.Reading.{Begins, Reads, commands_of, placed, placed_from};
ghost use Rattle.dvi_commands.specs.Refusal.{LAST_OPCODE, fixed_size, may_stand, refusal, gives_negative_length, text_size};
ghost use Rattle.dvi_commands.specs.Spelling.{DviCommand, Spells, value_of_command};

use crate::command::{Command, CommandFault, Context};
use crate::fields::{command_alone, command_with, small_character};
use big_endian::{signed, unsigned};

const LAST_OPCODE: u8 = 249;

// The last opcode that is a character by itself.
const LAST_SMALL_CHARACTER: u8 = 127;

// How many bytes the fields of a command have, by its opcode, without a text.
static FIELD_SIZES: [u8; 250] = [
    // Set, from 0
    0, 0, 0, 0, 0, 0, 0, 0, 0, 0, 0, 0, 0, 0, 0, 0, 0, 0, 0, 0, 0, 0, 0, 0, 0, 0, 0, 0, 0, 0, 0, 0,
    0, 0, 0, 0, 0, 0, 0, 0, 0, 0, 0, 0, 0, 0, 0, 0, 0, 0, 0, 0, 0, 0, 0, 0, 0, 0, 0, 0, 0, 0, 0, 0,
    0, 0, 0, 0, 0, 0, 0, 0, 0, 0, 0, 0, 0, 0, 0, 0, 0, 0, 0, 0, 0, 0, 0, 0, 0, 0, 0, 0, 0, 0, 0, 0,
    0, 0, 0, 0, 0, 0, 0, 0, 0, 0, 0, 0, 0, 0, 0, 0, 0, 0, 0, 0, 0, 0, 0, 0, 0, 0, 0, 0, 0, 0, 0, 0,
    // from 128: Set, SetRule, Put, PutRule
    1, 2, 3, 4, 8, 1, 2, 3, 4, 8,
    // from 138: Nop, Bop, Eop, Push, Pop
    0, 44, 0, 0, 0,
    // from 143: Right, W0, W, X0, X
    1, 2, 3, 4, 0, 1, 2, 3, 4, 0, 1, 2, 3, 4,
    // from 157: Down, Y0, Y, Z0, Z
    1, 2, 3, 4, 0, 1, 2, 3, 4, 0, 1, 2, 3, 4,
    // from 171: Font
    0, 0, 0, 0, 0, 0, 0, 0, 0, 0, 0, 0, 0, 0, 0, 0, 0, 0, 0, 0, 0, 0, 0, 0, 0, 0, 0, 0, 0, 0, 0, 0,
    0, 0, 0, 0, 0, 0, 0, 0, 0, 0, 0, 0, 0, 0, 0, 0, 0, 0, 0, 0, 0, 0, 0, 0, 0, 0, 0, 0, 0, 0, 0, 0,
    // from 235: Font, Special, Define
    1, 2, 3, 4, 1, 2, 3, 4, 15, 16, 17, 18,
    // from 247: Pre, Post, PostPost
    14, 28, 5,
];

// Whether a command with the opcode may stand in the context.
#[inline(always)]
fn is_allowed(context: Context, opcode: u8) -> bool
    ensures { result ≡ may_stand context opcode }
{
    match context {
        Context::Start => opcode == 247,
        Context::Between => matches!(opcode, 138 | 139 | 243..=246 | 248),
        Context::Page => matches!(opcode, 0..=138 | 140..=246),
        Context::Packet => matches!(opcode, 0..=138 | 141..=242),
        Context::Post => matches!(opcode, 138 | 243..=246 | 249),
    }
}

// How many bytes the fields have, without a text.
#[inline(always)]
fn field_size(opcode: u8) -> usize
    requires { opcode ≤ LAST_OPCODE }
    ensures { result ≡ fixed_size opcode }
{
    FIELD_SIZES[opcode as usize] as usize
}

// How long the text after the fields is, or `None` where the length of a special is negative.
#[inline(always)]
fn text_length(opcode: u8, fields: &[u8]) -> Option<usize>
    requires known { opcode ≤ LAST_OPCODE }
    requires whole { length fields.now ≡ fixed_size opcode }
    ensures negative { IsNone result ↔ IsTrue (gives_negative_length opcode fields.now) }
    ensures given { IfSome result (λ n. n ≡ text_size opcode fields.now) }
{
    match opcode {
        239..=241 => Some(unsigned(fields) as usize),
        242 => usize::try_from(signed(fields)).ok(),
        243..=246 => {
            let lengths = fields.len() - 2;
            Some(fields[lengths] as usize + fields[lengths + 1] as usize)
        }
        247 => Some(fields[13] as usize),
        _ => Some(0),
    }
}

/// Reads the command at a place, and gives it with the place after it.
///
/// The fault is the first of these that applies: `Short` where no byte is left; `Undefined` for an
/// opcode that belongs to no command; `Misplaced` where the command isn't allowed in the context;
/// `Short` where its fields aren't all there; `NegativeLength` for a special of negative length;
/// `Short` where its text isn't all there. Takes no memory.
#[inline(always)]
pub fn read_command<'a>(
    bytes: &'a [u8],
    at: usize,
    context: Context,
) -> Result<(Command<'a>, usize), CommandFault>
    requires { at ≤ length bytes.now }
    ensures read { IfOk result (λ r. Spells (value_of_command r.0) (slice_range bytes.now at r.1)) }
    ensures allowed { IfOk result (λ r. IsTrue (may_stand context (slice_index bytes.now at))) }
    ensures place { IfOk result (λ r. (at < r.1) × (r.1 ≤ length bytes.now)) }
    ensures refused { IfErr result (λ fault. refusal context (drop at bytes.now) ≡ Some fault) }

    // Whatever command the bytes begin with is read as that command.
    ensures found { (c : DviCommand) (prefix rest : List ℕ)
        → Begins context c prefix rest (drop at bytes.now)
        → IsOkAnd result (λ r. (value_of_command r.0 ≡ c) × (r.1 ≡ at + length prefix)) }
{
    if at == bytes.len() {
        return Err(CommandFault::Short);
    }
    let opcode = bytes[at];
    if opcode > LAST_OPCODE {
        return Err(CommandFault::Undefined(opcode));
    }
    if !is_allowed(context, opcode) {
        return Err(CommandFault::Misplaced(opcode));
    }
    // Most commands of a page are characters of one byte.
    if opcode <= LAST_SMALL_CHARACTER {
        return Ok((small_character(opcode), at + 1));
    }
    if let Some(command) = command_alone(opcode) {
        return Ok((command, at + 1));
    }
    let after = &bytes[at + 1..];
    let size = field_size(opcode);
    if after.len() < size {
        return Err(CommandFault::Short);
    }
    let (fields, after) = after.split_at(size);
    let Some(length) = text_length(opcode, fields) else {
        return Err(CommandFault::NegativeLength);
    };
    if after.len() < length {
        return Err(CommandFault::Short);
    }
    let command = command_with(opcode, fields, &after[..length]);
    Ok((command, at + 1 + size + length))
}

/// Reads the command at a place of bytes that are whole commands from there to their end, and gives
/// it with the place after it.
#[inline(always)]
pub fn command_at<'a>(bytes: &'a [u8], at: usize, context: Context) -> (Command<'a>, usize)
    requires inside { at < length bytes.now }
    requires readable { Reads context (drop at bytes.now) }
    ensures place { (at < result.1) × (result.1 ≤ length bytes.now) }
    ensures spelled { Spells (value_of_command result.0) (slice_range bytes.now at result.1) }
    ensures allowed { IsTrue (may_stand context (slice_index bytes.now at)) }
    ensures readable { Reads context (drop result.1 bytes.now) }

    // The commands from the place on are this one and those after it, wherever the first stands.
    ensures placed { (start : ℕ) → placed_from start (drop at bytes.now)
        ≡ placed start (value_of_command result.0) (slice_range bytes.now at result.1)
        ∷ placed_from (start + (result.1 - at)) (drop result.1 bytes.now) }
    ensures commands { commands_of (drop at bytes.now)
        ≡ value_of_command result.0 ∷ commands_of (drop result.1 bytes.now) }
{
    match read_command(bytes, at, context) {
        Ok(read) => read,
        Err(_) => unreachable!(),
    }
}
