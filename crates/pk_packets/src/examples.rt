//! A small font worked out by hand, each value the contract of a function without a body.

ghost use Rattle.std.specs.Prelude.{[], ◌∷◌, None, Some, take};
ghost use Rattle.pk_packets.specs.Faults.{IsFirstFault};
ghost use Rattle.pk_packets.specs.Fonts.{IsAnswer, IsPkFile};
ghost use Rattle.pk_packets.specs.Examples.{bar_file, bar_glyph, bar_packet, wrong_identifier, wrong_length, wrong_opcode};
ghost use Rattle.pk_packets.specs.declared.faults.PkFault.TheVariants as fault;

/// A font with one letter, its glyph, and the faults of the font where it is cut or changed.
pub fn bar_font()
    ensures read { IsPkFile bar_file (bar_packet ∷ []) }
    ensures glyph { IsAnswer (bar_packet ∷ []) 65 (Some bar_glyph) }
    ensures no_glyph { IsAnswer (bar_packet ∷ []) 66 None }
    ensures short { IsFirstFault (take 33 bar_file) fault.Short }
    ensures preamble { IsFirstFault wrong_identifier fault.Preamble }
    ensures length { IsFirstFault wrong_length (fault.Length 65) }
    ensures undefined { IsFirstFault wrong_opcode (fault.Undefined 247) }
{}
