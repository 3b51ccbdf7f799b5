//! A PK file that was read.
ghost use Rattle.std.specs.Prelude.{◌≡◌, ◌==◌, ℕ, IfOk, MatchOption, None, OnOk, Some, if◌then◌else◌};
ghost use Rattle.pk_packets.specs.Fonts.{glyph_of};
ghost use Rattle.pk_runs.specs.Weights.{glyphs_weight};

use pk_runs::{Glyph, GlyphTable};
use std::alloc::{AllocError as NoMemory, Global};
use std::marker::Model;

/// The glyphs of a packed font. A contract sees it as the glyphs of the codes from 0 to 255 by
/// their places and those of the others by their codes; `glyph_of` says which one a code has.
#[derive(Drop)]
pub struct PkFont {
    table: GlyphTable,
}

impl Model for PkFont {
    ghost use Rattle.pk_packets.specs.Fonts.{Glyphs};

    ghost Value = { Glyphs };

    ghost view = { λ f. f.table };
}

impl PkFont {
    /// A font without glyphs.
    pub(crate) fn empty(alloc: Global) -> Result<PkFont, NoMemory>
        ensures { IfOk result (λ font. (c : ℕ) → glyph_of font c ≡ None) }
    {
        Ok(PkFont {
            table: GlyphTable::empty(alloc)?,
        })
    }

    /// Gives a code a glyph, in place of the one that it may have.
    pub(crate) fn put(&mut self, c: u32, glyph: Glyph) -> Result<(), NoMemory>
        ensures { OnOk result ((k : ℕ) → glyph_of self.new k ≡
            (if c == k then Some glyph else glyph_of self.old k)) }
    {
        self.table.put(c, glyph)
    }

    /// The glyph of a code: that of the last packet with it. `None` where no packet has the code.
    #[inline(always)]
    pub fn glyph(&self, c: u32) -> Option<&Glyph>
        ensures { MatchOption result (glyph_of self.now c ≡ None)
            (λ g. glyph_of self.now c ≡ Some g.now) }
    {
        self.table.get(c)
    }

    /// The bytes that the rasters of all codes take together, each row in whole bytes.
    pub fn weight(&self) -> u64
        ensures { result ≡ glyphs_weight self.now }
    {
        self.table.weight()
    }
}
