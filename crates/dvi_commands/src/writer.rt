//! Writing one command after bytes, in its shortest spelling.

ghost use Rattle.std.specs.Prelude.{◌≡◌, ◌++◌, OnErr, OnOk};
ghost use Rattle.dvi_commands.specs.ShortestSpelling.{shortest_spelling};
ghost use Rattle.dvi_commands.specs.Spelling.{Spells, value_of_command};
ghost use Rattle.dvi_commands.specs.Writing.{IsAreaInName, IsRestShort, IsSpecialShort, IsTextShort};

mod fields;
mod numbers;
mod parts;

use crate::command::Command;
use fields::{
    append_bop, append_definition, append_post, append_post_post, append_preamble, append_rule,
    append_special,
};
use numbers::{append_motion, append_number, append_opcode};
use std::alloc::{AllocError as NoMemory, Global};

/// Appends the shortest spelling of the command: motions in the least number of bytes that holds
/// them signed, other numbers below 2^24 in the least that holds them unsigned.
///
/// The text of a special has at most 2^31 - 1 bytes and that of a preamble at most 255; the area of
/// a font is part of its name, and the rest of the name has at most 255 bytes.
///
/// Where memory runs out, `out` is as before: the room for the whole spelling is made at once.
/// Knuth, DVItype, "Device-independent file format".
pub fn write_command(_alloc: Global, command: &Command, out: &mut Vec<u8>) -> Result<(), NoMemory>
    requires special { IsSpecialShort (value_of_command command.now) }
    requires text { IsTextShort (value_of_command command.now) }
    requires area { IsAreaInName (value_of_command command.now) }
    requires rest { IsRestShort (value_of_command command.now) }
    ensures written { OnOk result (out.new.items ≡ out.old.items ++ shortest_spelling
        (value_of_command command.now)) }
    ensures unchanged { OnErr result (out.new.items ≡ out.old.items) }
    ensures spelled { Spells (value_of_command command.now) (shortest_spelling
        (value_of_command command.now)) }
{
    match *command {
        Command::Set(code @ 0..=127) => append_opcode(out, code as u8),
        Command::Set(code) => append_number(out, 127, code),
        Command::Put(code) => append_number(out, 132, code),
        Command::SetRule { height, width } => append_rule(out, 132, height, width),
        Command::PutRule { height, width } => append_rule(out, 137, height, width),
        Command::Nop => append_opcode(out, 138),
        Command::Bop { counts, back } => append_bop(out, &counts, back),
        Command::Eop => append_opcode(out, 140),
        Command::Push => append_opcode(out, 141),
        Command::Pop => append_opcode(out, 142),
        Command::Right(by) => append_motion(out, 142, by),
        Command::W0 => append_opcode(out, 147),
        Command::W(by) => append_motion(out, 147, by),
        Command::X0 => append_opcode(out, 152),
        Command::X(by) => append_motion(out, 152, by),
        Command::Down(by) => append_motion(out, 156, by),
        Command::Y0 => append_opcode(out, 161),
        Command::Y(by) => append_motion(out, 161, by),
        Command::Z0 => append_opcode(out, 166),
        Command::Z(by) => append_motion(out, 166, by),
        Command::Font(number @ 0..=63) => append_opcode(out, 171 + number as u8),
        Command::Font(number) => append_number(out, 234, number),
        Command::Special(text) => append_special(out, text),
        Command::Define(definition) => append_definition(out, &definition),
        Command::Pre {
            id,
            num,
            den,
            mag,
            text,
        } => append_preamble(out, id, &[num, den, mag], text),
        Command::Post {
            back,
            num,
            den,
            mag,
            tallest,
            widest,
            deepest,
            pages,
        } => { append_post(out, &[back, num, den, mag, tallest, widest], deepest, pages) }
        Command::PostPost { post, id } => append_post_post(out, post, id),
    }
}
