//! Laws over the definitions, each the contract of a function without a body.

ghost use Rattle.glyph_paint.specs.Glyphs.{GlyphsCommute, GlyphsBesideLeaveThePage, BlackGlyphsAreRules};

/// Glyphs may be painted in either order, one that lies beside the page leaves it as it is, and a
/// wholly black one is a rule.
pub fn glyphs()
    ensures commute { GlyphsCommute }
    ensures beside { GlyphsBesideLeaveThePage }
    ensures black { BlackGlyphsAreRules }
{}
