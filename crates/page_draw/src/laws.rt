//! Laws of the values of pages.
ghost use Rattle.page_draw.specs.Tolerance.{EqualLacksAreOne, LacksEndNoTolerantPage, PagesLackWhatIsMissing, WholePagesAgree};
ghost use Rattle.page_draw.specs.Laws.{PagesHaveOneValue, EachPageHasOneValue, BrokenPagesBegin, PacketsAreSetInPlace, FontsPacketsAreSetInPlace};

/// Over a library a page has exactly one value, and its keys are looked up in one order; a page
/// that was broken off asked for the first of them.
pub fn values()
    ensures one { PagesHaveOneValue }
    ensures exactly { EachPageHasOneValue }
    ensures begun { BrokenPagesBegin }
{}

/// What a page on a tolerant sheet lacks are missing fonts, characters, glyphs and packets. Those
/// with equal faults are one, and none of them ends the page; on any other sheet it lacks nothing.
/// A page that is whole and lacks nothing is one page on both.
pub fn lacks()
    ensures equal { EqualLacksAreOne }
    ensures missing { PagesLackWhatIsMissing }
    ensures otherwise { LacksEndNoTolerantPage }
    ensures agree { WholePagesAgree }
{}

/// The packet of a virtual character, whatever the font, is set where the character is, and moves
/// nothing that comes after it. All that this needs of a packet is that it pushes and pops in
/// balance, as each packet of a font does.
pub fn packets()
    ensures in_place { PacketsAreSetInPlace }
    ensures of_fonts { FontsPacketsAreSetInPlace }
{}
