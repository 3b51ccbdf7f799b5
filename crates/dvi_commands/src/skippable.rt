//! Skipping a command of a page: any but bop, eop, a font definition and a special.

ghost use Rattle.std.specs.Prelude.{◌≡◌, ◌≤◌, ℕ, List, length, drop, IfSome, IsNone, IsFalse};
ghost use Rattle.dvi_commands.specs.Skippable.{IsSkippableTo, is_skippable, skippable_size};
ghost use Rattle.dvi_commands.specs.Reading.{Begins};
ghost use Rattle.dvi_commands.specs.Spelling.{DviCommand};
ghost use Rattle.dvi_commands.specs.declared.command.Context.TheVariants as context;

// How many bytes a skippable command has, by its opcode, and 0 for an opcode of no skippable
// command.
static SKIPPABLE_LENGTHS: [u8; 256] = [
    // Set, from 0
    1, 1, 1, 1, 1, 1, 1, 1, 1, 1, 1, 1, 1, 1, 1, 1, 1, 1, 1, 1, 1, 1, 1, 1, 1, 1, 1, 1, 1, 1, 1, 1,
    1, 1, 1, 1, 1, 1, 1, 1, 1, 1, 1, 1, 1, 1, 1, 1, 1, 1, 1, 1, 1, 1, 1, 1, 1, 1, 1, 1, 1, 1, 1, 1,
    1, 1, 1, 1, 1, 1, 1, 1, 1, 1, 1, 1, 1, 1, 1, 1, 1, 1, 1, 1, 1, 1, 1, 1, 1, 1, 1, 1, 1, 1, 1, 1,
    1, 1, 1, 1, 1, 1, 1, 1, 1, 1, 1, 1, 1, 1, 1, 1, 1, 1, 1, 1, 1, 1, 1, 1, 1, 1, 1, 1, 1, 1, 1, 1,
    // from 128: Set, SetRule, Put, PutRule
    2, 3, 4, 5, 9, 2, 3, 4, 5, 9,
    // from 138: Nop, Bop, Eop, Push, Pop
    1, 0, 0, 1, 1,
    // from 143: Right, W0, W, X0, X
    2, 3, 4, 5, 1, 2, 3, 4, 5, 1, 2, 3, 4, 5,
    // from 157: Down, Y0, Y, Z0, Z
    2, 3, 4, 5, 1, 2, 3, 4, 5, 1, 2, 3, 4, 5,
    // from 171: Font
    1, 1, 1, 1, 1, 1, 1, 1, 1, 1, 1, 1, 1, 1, 1, 1, 1, 1, 1, 1, 1, 1, 1, 1, 1, 1, 1, 1, 1, 1, 1, 1,
    1, 1, 1, 1, 1, 1, 1, 1, 1, 1, 1, 1, 1, 1, 1, 1, 1, 1, 1, 1, 1, 1, 1, 1, 1, 1, 1, 1, 1, 1, 1, 1,
    // from 235: Font, Special, Define, Pre, Post, PostPost, and no command
    2, 3, 4, 5, 0, 0, 0, 0, 0, 0, 0, 0, 0, 0, 0, 0, 0, 0, 0, 0, 0,
];

#[inline]
fn skippable_length(opcode: u8) -> usize
    ensures { result ≡ skippable_size opcode }
{
    SKIPPABLE_LENGTHS[opcode as usize] as usize
}

/// The place after a command of a page that can be skipped unread: one that sets, moves, saves or
/// restores the registers, chooses a font or does nothing.
///
/// `None` where no such command begins, or the one that begins isn't all there. The opcode
/// determines the length, so the fields aren't read.
#[inline]
pub fn end_of_skippable(bytes: &[u8], at: usize) -> Option<usize>
    requires { at ≤ length bytes.now }
    ensures skippable { IfSome result (λ next. IsSkippableTo bytes.now at next) }

    // Where a skippable command begins, its place is found.
    ensures other { IsNone result → (c : DviCommand) (prefix rest : List ℕ)
        → Begins context.Page c prefix rest (drop at bytes.now) → IsFalse (is_skippable c) }
{
    if at == bytes.len() {
        return None;
    }
    let length = skippable_length(bytes[at]);
    // Where more bytes are needed than are left, the general reading answers the fault.
    if length == 0 || bytes.len() - at < length {
        return None;
    }
    Some(at + length)
}
