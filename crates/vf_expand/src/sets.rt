//! Whether a character is set or put next.
ghost use Rattle.std.specs.Prelude.{◌≤◌, length, drop, IfSome, IsNone};
ghost use Rattle.dvi_commands.specs.Reading.{Reads};
ghost use Rattle.vf_expand.specs.Sets.{IsSetTo, SetsNothing};

use dvi_commands::{Command, Context, command_at};

// The last opcode of a character that is put; before it stand those of a character that is set, and
// that of a rule.
const LAST_PUT: u8 = 136;

/// The code of the character that is set or put at a place of whole commands, whether it is put,
/// and the place after its command. `None` where any other command comes, and at the end of the
/// bytes.
#[inline(always)]
pub fn character_at(text: &[u8], pos: usize, context: Context) -> Option<(i32, bool, usize)>
    requires inside { pos ≤ length text.now }
    requires readable { Reads context (drop pos text.now) }
    ensures set { IfSome result (λ set. IsSetTo text.now pos set.0 set.1 set.2) }
    ensures readable { IfSome result (λ set. Reads context (drop set.2 text.now)) }
    ensures none { IsNone result → SetsNothing context (drop pos text.now) }
{
    if pos == text.len() || text[pos] > LAST_PUT {
        return None;
    }
    let (command, end) = command_at(text, pos, context);
    match command {
        Command::Set(code) => Some((code, false, end)),
        Command::Put(code) => Some((code, true, end)),
        _ => None,
    }
}
