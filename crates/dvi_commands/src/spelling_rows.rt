//! Single spellings and refusals, by computation.

ghost use Rattle.std.specs.Prelude.{◌≡◌, filter, not, pos, negsuc, [], ◌∷◌, Some, None};
ghost use Rattle.dvi_commands.specs.Rows.{opcodes};
ghost use Rattle.dvi_commands.specs.Refusal.{may_stand, refusal};
ghost use Rattle.dvi_commands.specs.ShortestSpelling.{shortest_spelling};
ghost use Rattle.dvi_commands.specs.Spelling.{Font, Right, Set, W};
ghost use Rattle.dvi_commands.specs.declared.command.CommandFault.TheVariants.{Misplaced, NegativeLength, Short, Undefined};
ghost use Rattle.dvi_commands.specs.declared.command.Context.TheVariants as context;

/// Some shortest spellings.
pub fn shortest_spellings()
    ensures set_65 { shortest_spelling (Set (pos 65)) ≡ 0x41 ∷ [] }
    ensures set_200 { shortest_spelling (Set (pos 200)) ≡ 0x80 ∷ 0xc8 ∷ [] }
    ensures set_minus_1 { shortest_spelling (Set (negsuc 0))
        ≡ 0x83 ∷ 0xff ∷ 0xff ∷ 0xff ∷ 0xff ∷ [] }
    ensures right_minus_1 { shortest_spelling (Right (negsuc 0)) ≡ 0x8f ∷ 0xff ∷ [] }
    ensures right_128 { shortest_spelling (Right (pos 128)) ≡ 0x90 ∷ 0x00 ∷ 0x80 ∷ [] }
    ensures w_0 { shortest_spelling (W (pos 0)) ≡ 0x94 ∷ 0x00 ∷ [] }
    ensures font_63 { shortest_spelling (Font (pos 63)) ≡ 0xea ∷ [] }
    ensures font_64 { shortest_spelling (Font (pos 64)) ≡ 0xeb ∷ 0x40 ∷ [] }
{}

/// Refusals on a page, and a motion that isn't refused.
pub fn refused_on_a_page()
    ensures nothing { refusal context.Page [] ≡ Some Short }
    ensures undefined { refusal context.Page (0xfa ∷ []) ≡ Some (Undefined 250) }
    ensures misplaced { refusal context.Page (0xf8 ∷ []) ≡ Some (Misplaced 248) }
    ensures character { refusal context.Page (0x41 ∷ []) ≡ None }
    ensures cut { refusal context.Page (0x90 ∷ 0x00 ∷ []) ≡ Some Short }
    ensures whole { refusal context.Page (0x90 ∷ 0x00 ∷ 0x80 ∷ []) ≡ None }
{}

/// Specials on a page: a length of four bytes is judged when it is whole, and before the text.
pub fn refused_specials()
    ensures negative { refusal context.Page (0xf2 ∷ 0xff ∷ 0xff ∷ 0xff ∷ 0xff ∷ [])
        ≡ Some NegativeLength }
    ensures cut_length { refusal context.Page (0xf2 ∷ 0xff ∷ 0xff ∷ 0xff ∷ []) ≡ Some Short }
    ensures cut_text { refusal context.Page (0xf2 ∷ 0x00 ∷ 0x00 ∷ 0x00 ∷ 0x02 ∷ 0x68 ∷ [])
        ≡ Some Short }
    ensures whole { refusal context.Page (0xf2 ∷ 0x00 ∷ 0x00 ∷ 0x00 ∷ 0x02 ∷ 0x68 ∷ 0x69 ∷ [])
        ≡ None }
    ensures unsigned_length { refusal context.Page (0xef ∷ 0xff ∷ []) ≡ Some Short }
    ensures misplaced { refusal context.Between (0xf2 ∷ 0xff ∷ 0xff ∷ 0xff ∷ 0xff ∷ [])
        ≡ Some (Misplaced 242) }
{}

/// A preamble whose text is cut is refused, and one whose text is whole is not.
pub fn refused_at_the_start()
    ensures cut { refusal context.Start (247 ∷ 2 ∷ 0 ∷ 0 ∷ 4 ∷ 246 ∷ 0 ∷ 0 ∷ 0 ∷ 3 ∷ 0 ∷ 0
        ∷ 3 ∷ 232 ∷ 2 ∷ 72 ∷ []) ≡ Some Short }
    ensures whole { refusal context.Start (247 ∷ 2 ∷ 0 ∷ 0 ∷ 4 ∷ 246 ∷ 0 ∷ 0 ∷ 0 ∷ 3 ∷ 0 ∷ 0
        ∷ 3 ∷ 232 ∷ 2 ∷ 72 ∷ 105 ∷ []) ≡ None }
{}

/// Which opcodes are allowed where, and which are not.
pub fn contexts()
    ensures start { filter (may_stand context.Start) opcodes ≡ 247 ∷ [] }
    ensures between { filter (may_stand context.Between) opcodes
        ≡ 138 ∷ 139 ∷ 243 ∷ 244 ∷ 245 ∷ 246 ∷ 248 ∷ [] }
    ensures after_the_pages { filter (may_stand context.Post) opcodes
        ≡ 138 ∷ 243 ∷ 244 ∷ 245 ∷ 246 ∷ 249 ∷ [] }
    ensures not_on_a_page { filter (λ op. not (may_stand context.Page op)) opcodes
        ≡ 139 ∷ 247 ∷ 248 ∷ 249 ∷ 250 ∷ 251 ∷ 252 ∷ 253 ∷ 254 ∷ 255 ∷ [] }
    ensures not_in_a_packet { filter (λ op. not (may_stand context.Packet op)) opcodes
        ≡ 139 ∷ 140 ∷ 243 ∷ 244 ∷ 245 ∷ 246 ∷ 247 ∷ 248 ∷ 249 ∷ 250 ∷ 251 ∷ 252 ∷ 253 ∷ 254 ∷ 255
        ∷ [] }
{}
