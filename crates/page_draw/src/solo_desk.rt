//! A desk with a cache for one worker.
ghost use Rattle.std.specs.Prelude.{◌≡◌, ◌+◌, ◌^◌, ◌≤◌, [], ◌∷◌, Some, IfOk, IsErrOf, IsOk, OnOk, OnErr, refl};
ghost use Rattle.std.specs.Arc.{arc_value};
ghost use Rattle.outside.specs.Counts.{HasCause};
ghost use Rattle.cache_core.specs.Histories.{AreOf};
ghost use Rattle.cache_core.specs.Machine.{Legal};
ghost use Rattle.cache_core.specs.Views.{calls_of};
ghost use Rattle.outside.specs.FontKeys.{IsFontKey};
ghost use Rattle.pixel_round.specs.Preamble.{AreUnits};
ghost use Rattle.font_decode.specs.Decoding.{IsFontOf};
ghost use Rattle.font_decode.specs.Desks.{GrewBy, GrewByAtMost, TrailGrew};
ghost use Rattle.page_draw.specs.SoloDesks.{IsAlone, asked_by, room_by, trail_by};
ghost use Rattle.cache_core.specs.Limits.{MAX_CACHED_FONTS};

use crate::keeping::keep;
use cache_core::{CacheState, Entry, Look, laws};
use font_decode::{Decoded, Desk, DeskStop, load};
use outside::{FontKey, FontSource};
use pixel_round::Units;
use std::alloc::{AllocError as NoMemory, Global};
use std::marker::Model;
use std::sync::{Arc, Wait};

/// A desk that keeps fonts in a cache, whose only seat it has, with number 1. Its units, the keys
/// asked for and the calls of its seat are known, and its library where that of its source is.
#[derive(Drop)]
pub struct SoloDesk<F: FontSource> {
    source: F,
    units: Units,
    cache: CacheState<Decoded>,
}

impl<F: FontSource> Model for SoloDesk<F> {
    ghost use Rattle.page_draw.specs.SoloDesks.{SoloView, IsAlone};

    ghost Value = { SoloView F };

    ghost view = { λ d. record { source = d.source; units = d.units; cache = d.cache } };

    ghost invariant = { λ d. IsAlone (F.library d.source) d.units d.cache };
}

impl<F: FontSource> SoloDesk<F> {
    /// A desk over a source, for the units of a document, with a cache of n fonts at most, 1 to
    /// 256, that weigh no more bytes than the budget together. `NoMemory` drops the source.
    pub fn new(
        alloc: Global,
        source: F,
        units: Units,
        capacity: usize,
        budget: u64,
    ) -> Result<SoloDesk<F>, NoMemory>
        requires units { AreUnits units }
        requires some_font { 1 ≤ capacity }
        requires few_fonts { capacity ≤ MAX_CACHED_FONTS }
        ensures source { IfOk result (λ d. d.source ≡ source) }
        ensures units { IfOk result (λ d. d.units ≡ units) }
        ensures limits { IfOk result (λ d. d.cache.limits ≡ record {
          capacity = capacity;
          budget = budget;
        }) }
        ensures no_call { IfOk result (λ d. (d.cache.history ≡ []) × (d.cache.turns ≡ 0)) }
    {
        let cache = CacheState::new(alloc, capacity, budget)?;
        Ok(SoloDesk {
            source,
            units,
            cache,
        })
    }

    /// Gives the source back, and the calls of the seat, in order, which are a legal history.
    pub fn finish(self) -> (F, Vec<Entry>)
        ensures source { result.0 ≡ self.source }
        ensures history { calls_of result.1.items ≡ self.cache.history }
        ensures legal { Legal self.cache.limits self.cache.history }
        ensures own { AreOf 1 self.cache.history }
    {
        let SoloDesk {
            source,
            units: _,
            cache,
        } = self;
        (source, cache.finish())
    }
}

impl<F: FontSource> Desk for SoloDesk<F> {
    ghost use Rattle.page_draw.specs.SoloDesks.{asked_by, room_by, trail_by};

    type Shared = ();

    ghost library = { λ d. F.library d.source };

    ghost units = { λ d. Some d.units };

    ghost fits = { λ d shared. Unit {0} };

    ghost faults = { λ d. F.faults d.source };

    ghost asked = { λ d. asked_by d.cache };

    ghost trail = { λ d. trail_by (F.library d.source) d.units (F.loads d.source) d.cache };

    ghost room = { λ d. room_by d.cache.turns };

    ghost known = { λ d some. refl };

    ghost asks = { λ d some. refl };

    ghost shares = { λ d. (refl, refl) };

    fn font<R: Wait>(
        &mut self,
        _rt: &R,
        alloc: Global,
        _shared: &(),
        key: &Arc<FontKey>,
    ) -> Result<Arc<Decoded>, DeskStop> {
        ask(alloc, &mut self.cache, &mut self.source, &self.units, key)
    }
}

// The font of a key, out of the cache or from its files, which are kept there.
fn ask<F: FontSource>(
    alloc: Global,
    cache: &mut CacheState<Decoded>,
    source: &mut F,
    units: &Units,
    key: &Arc<FontKey>,
) -> Result<Arc<Decoded>, DeskStop>
    requires alone { IsAlone (F.library source.old) units.now cache.old }
    requires few { cache.old.turns + 3 ≤ 2 ^ 62 }
    requires key { IsFontKey (arc_value key.now) }
    ensures found { IfOk result (λ font.
        IsFontOf (F.library source.old) (Some units.now) (arc_value key.now) (arc_value font)) }
    ensures library { F.library source.new ≡ F.library source.old }
    ensures alone { IsAlone (F.library source.new) units.now cache.new }
    ensures limits { cache.new.limits ≡ cache.old.limits }
    ensures turns { cache.new.turns ≤ cache.old.turns + 3 }
    ensures cause { HasCause (F.faults source.old) (F.faults source.new)
        (IsErrOf result DeskStop.SourceFault) }
    ensures asked { OnOk result (GrewBy (asked_by cache.old) (asked_by cache.new)
        (arc_value key.now ∷ [])) }
    ensures refused { OnErr result (GrewByAtMost (asked_by cache.old) (asked_by cache.new)
        (arc_value key.now)) }
    ensures trail { TrailGrew (IsOk result) (asked_by cache.old) (asked_by cache.new)
        (trail_by (F.library source.old) units.now (F.loads source.old) cache.old)
        (trail_by (F.library source.new) units.now (F.loads source.new) cache.new) }
{
    // For the proof: no look of the only seat is busy.
    laws::solo();
    match cache.look(1, key)? {
        Look::Hit(font) => Ok(font),
        Look::Busy => unreachable!(),
        Look::Claimed => match load(alloc, source, key, units) {
            Ok(font) => keep(cache, key, font),
            Err(stop) => {
                cache.release(1, key);
                Err(stop)
            }
        },
    }
}
