//! Laws over the definitions, each the contract of a function without a body.

ghost use Rattle.std.specs.Prelude.{◌≡◌, ◌++◌, ◌∷◌, [], codes};
ghost use Rattle.pbm_output.specs.Pbm.{TextsHaveTheirLength, TextsDetermineThePage, page_text};
ghost use Rattle.pbm_output.specs.Examples.{small_page};

/// How long the text of a page is.
pub fn lengths()
    ensures { TextsHaveTheirLength }
{}

/// Two pages of the same text are equal.
pub fn determined_pages()
    ensures { TextsDetermineThePage }
{}

/// The text of a page of 10 by 2 dots: a row takes two bytes, and the first dot is in the high bit.
pub fn worked_page()
    ensures { page_text small_page ≡ codes "P4\n10 2\n" ++ 0 ∷ 192 ∷ 0 ∷ 0 ∷ [] }
{}
