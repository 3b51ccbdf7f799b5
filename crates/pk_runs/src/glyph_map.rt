//! A map from codes to glyphs.

ghost use Rattle.std.specs.Prelude.{◌≡◌, ◌==◌, ℕ, IfOk, MatchOption, None, OnErr, OnOk, Some, if◌then◌else◌, replicate};
ghost use Rattle.pk_runs.specs.Glyphs.{glyph_of};

use crate::glyph::Glyph;
use std::alloc::{AllocError as NoMemory, Global};
use std::collections::BTreeMap;
use std::marker::Model;

// The codes that have a place in the table.
const PLACES: u32 = 256;

/// The glyph of each code that has one. A contract sees it as the glyphs of the codes from 0 to 255
/// by their places and those of the others by their codes; `glyph_of` says which one a code has.
#[derive(Drop)]
pub struct GlyphMap {
    by_place: Vec<Option<Glyph>>,
    others: BTreeMap<u32, Glyph>,
}

impl Model for GlyphMap {
    ghost use Rattle.std.specs.Prelude.{◌≡◌, length};
    ghost use Rattle.pk_runs.specs.Glyphs.{Glyphs};

    ghost Value = { Glyphs };

    ghost view = { λ t. record { by_place = t.by_place.items; others = t.others.entries } };

    ghost invariant = { λ t. length t.by_place.items ≡ 256 };
}

// The places, without glyphs.
fn no_glyphs(alloc: Global) -> Result<Vec<Option<Glyph>>, NoMemory>
    ensures { IfOk result (λ by_place. by_place.items ≡ replicate 256 None) }
{
    let mut by_place = Vec::with_capacity(alloc, PLACES as usize)?;
    for _code in 0..PLACES {
        by_place.push(None)?;
    }
    Ok(by_place)
}

impl GlyphMap {
    /// No glyph.
    pub fn empty(alloc: Global) -> Result<GlyphMap, NoMemory>
        ensures { IfOk result (λ map. (c : ℕ) → glyph_of map c ≡ None) }
    {
        Ok(GlyphMap {
            by_place: no_glyphs(alloc)?,
            others: BTreeMap::new(alloc),
        })
    }

    /// Gives a code a glyph, in place of the one that it may have. `NoMemory` leaves the map as it
    /// was.
    pub fn put(&mut self, c: u32, glyph: Glyph) -> Result<(), NoMemory>
        ensures put { OnOk result ((k : ℕ) → glyph_of self.new k ≡
            (if c == k then Some glyph else glyph_of self.old k)) }
        ensures unchanged { OnErr result (self.new ≡ self.old) }
    {
        if c < PLACES {
            self.by_place[c as usize] = Some(glyph);
        } else {
            self.others.insert(c, glyph)?;
        }
        Ok(())
    }

    /// The glyph of a code, or `None` where it has none.
    #[inline(always)]
    pub fn get(&self, c: u32) -> Option<&Glyph>
        ensures { MatchOption result (glyph_of self.now c ≡ None)
            (λ g. glyph_of self.now c ≡ Some g.now) }
    {
        if c < PLACES {
            self.by_place[c as usize].as_ref()
        } else {
            self.others.get(&c)
        }
    }
}
