//! Small fonts worked out by hand, each value the contract of a function without a body.

ghost use Rattle.std.specs.Prelude.{◌≡◌, ◌++◌, [], ◌∷◌, None, Some, pos, slice_set, take};
ghost use Rattle.dvi_commands.specs.declared.command.CommandFault.TheVariants as command_fault;
ghost use Rattle.vf_reader.specs.Faults.{IsFirstFault};
ghost use Rattle.vf_reader.specs.Fonts.{IsVfFile, program_with};
ghost use Rattle.vf_reader.specs.Locals.{local_with, locals_of};
ghost use Rattle.vf_reader.specs.Examples.{bar, bar_font, both, dot, dot_font, file, other_dot, short};
ghost use Rattle.vf_reader.specs.declared.faults.VfFault.TheVariants as fault;

/// A font with a letter of two local fonts.
pub fn two_fonts()
    ensures read { IsVfFile (file (dot ++ bar ++ both)) (both ∷ bar ∷ dot ∷ []) }
    ensures packet { program_with (both ∷ bar ∷ dot ∷ []) 65 ≡ Some (65 ∷ 172 ∷ 65 ∷ []) }
    ensures no_packet { program_with (both ∷ bar ∷ dot ∷ []) 66 ≡ None }
    ensures locals { locals_of (both ∷ bar ∷ dot ∷ []) ≡ dot_font ∷ bar_font ∷ [] }
    ensures second { local_with (dot_font ∷ bar_font ∷ []) (pos 1) ≡ Some bar_font }
    ensures short { IsFirstFault (take 57 (file (dot ++ bar ++ both))) fault.Short }
{}

/// The last packet of a code, and the first definition of a number, which a later one repeats.
pub fn said_twice()
    ensures packet { program_with (short 1 (138 ∷ []) ∷ both ∷ []) 65 ≡ Some (138 ∷ []) }
    ensures locals { locals_of (dot ∷ bar ∷ dot ∷ []) ≡ dot_font ∷ bar_font ∷ [] }
{}

/// What is wrong with changed files.
pub fn faults()
    ensures preamble { IsFirstFault (slice_set (file []) 1 89) fault.Preamble }
    ensures misplaced { IsFirstFault (file (247 ∷ [])) (fault.Misplaced 247) }
    ensures command { IsFirstFault (file (short 1 (140 ∷ [])))
        (fault.Packet 65 (command_fault.Misplaced 140)) }
    ensures cut { IsFirstFault (file (short 1 (143 ∷ []))) (fault.Packet 65 command_fault.Short) }
    ensures pop { IsFirstFault (file (short 1 (142 ∷ []))) (fault.Unbalanced 65) }
    ensures push { IsFirstFault (file (short 1 (141 ∷ []))) (fault.Unbalanced 65) }
    ensures motion { IsFirstFault (file (short 5 (146 ∷ 1 ∷ 0 ∷ 0 ∷ 0 ∷ []))) (fault.Dimension 65) }
    ensures other_font { IsFirstFault (file (dot ++ other_dot)) (fault.LocalDef (pos 0)) }
{}
