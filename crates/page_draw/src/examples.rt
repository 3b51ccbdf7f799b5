//! Worked marks on a sheet with margins, dot by dot, at one half of a dot for a unit.

ghost use Rattle.std.specs.Prelude.{◌≡◌, ℕ, Bool, pos, negsuc, None, Some, [], ◌∷◌};
ghost use Rattle.outside.specs.declared.keys.FontKey.{FontKey};
ghost use Rattle.drift_rules.specs.Position.{Char, Rule};
ghost use Rattle.drift_rules.specs.Marks.{mark_of};
ghost use Rattle.drift_rules.specs.Examples.{char_mark, half, rule_mark};
ghost use Rattle.raster_page.specs.Ink.{Bar, Dots};
ghost use Rattle.page_draw.specs.Sheets.{inks_of};
ghost use Rattle.page_draw.specs.Examples.{dot_0, dot_5, dot_7, dots_4_to_6, dots_5_and_6, letter, page, page_with, sheet, standing, stem, white};

/// A glyph of two columns and three rows whose reference pixel lies one column to its left, in its
/// last row: hoff is -1 and voff is 2. Its character stands in column 2 of row 3, and the margins
/// are 2 on the left and 1 on top, so its upper left dot is in column 2 + 1 + 2 of row 3 - 2 + 1.
/// It is the same whether it is set or put, whatever its font, its code and its width are.
pub fn glyphs()
    ensures placed { (key : FontKey) (code : ℕ) (put : Bool)
        → inks_of sheet (mark_of half (standing (pos 2) (pos 3)) (Char key code (pos 6) put))
        (Some letter) ≡ Dots stem (pos 5) (pos 2) ∷ [] }
    ensures dots { page_with (Some (char_mark (pos 2) (pos 3))) (Some letter)
        ≡ page (white ∷ white ∷ dot_5 ∷ dot_5 ∷ dots_5_and_6 ∷ white ∷ []) }
{}

/// What lies outside the page is cut off: two columns further right only the stem is there, six
/// columns further left only the foot, two rows further down only the two upper rows, and six rows
/// further down nothing.
pub fn cut_off()
    ensures right { page_with (Some (char_mark (pos 4) (pos 3))) (Some letter)
        ≡ page (white ∷ white ∷ dot_7 ∷ dot_7 ∷ dot_7 ∷ white ∷ []) }
    ensures left { page_with (Some (char_mark (negsuc 3) (pos 3))) (Some letter)
        ≡ page (white ∷ white ∷ white ∷ white ∷ dot_0 ∷ white ∷ []) }
    ensures bottom { page_with (Some (char_mark (pos 2) (pos 5))) (Some letter)
        ≡ page (white ∷ white ∷ white ∷ white ∷ dot_5 ∷ dot_5 ∷ []) }
    ensures below { page_with (Some (char_mark (pos 2) (pos 9))) (Some letter)
        ≡ page (white ∷ white ∷ white ∷ white ∷ white ∷ white ∷ []) }
{}

/// A rule of height 3 and width 5, two rows and three columns, with its lower left dot in column 2
/// of row 3: with the margins it covers columns 4 to 6 of rows 3 and 4, set or put. One without a
/// height leaves the page white.
pub fn black_rules()
    ensures placed { (put : Bool) → inks_of sheet (mark_of half (standing (pos 2) (pos 3))
        (Rule (pos 3) (pos 5) put)) None ≡ Bar (pos 4) (pos 3) (pos 3) (pos 2) ∷ [] }
    ensures dots { page_with (Some (rule_mark (pos 2) (pos 2) (pos 3) (pos 2))) None
        ≡ page (white ∷ white ∷ white ∷ dots_4_to_6 ∷ dots_4_to_6 ∷ white ∷ []) }
    ensures unmarked { (put : Bool) → page_with (mark_of half (standing (pos 2) (pos 3))
        (Rule (pos 0) (pos 5) put)) None
        ≡ page (white ∷ white ∷ white ∷ white ∷ white ∷ white ∷ []) }
{}
