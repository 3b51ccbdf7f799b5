//! A new bench, with its cache.
ghost use Rattle.std.specs.Prelude.{◌≡◌, ◌≤◌, IfOk, IfSome, Ok};
ghost use Rattle.cache_core.specs.declared.common.Common.{Common};
ghost use Rattle.turn_lock.specs.Views.{opening_view};
ghost use Rattle.cache_core.specs.Limits.{MAX_CACHED_FONTS};

use cache_core::Stands;
use font_cache::{CacheSeat, FontCache};
use font_decode::Decoded;
use page_workers::Bench;
use pixel_round::Units;
use std::alloc::{AllocError as NoMemory, Global};

/// An empty cache for the fonts of a document with these units, and seat 0 of it. The fonts that it
/// keeps weigh no more bytes than the budget together. `_units` is there for the proof: the units
/// of the seat's common part.
pub fn open_cache<T: Stands>(
    alloc: Global,
    capacity: usize,
    budget: u64,
    _units: &Units,
) -> Result<(FontCache<T>, CacheSeat<T>), NoMemory>
    ghost part: { Common }
    requires some_font { 1 ≤ capacity }
    requires few_fonts { capacity ≤ MAX_CACHED_FONTS }
    requires capacity { capacity ≡ part.capacity }
    requires budget { budget ≡ part.budget }
    requires units { _units.now ≡ part.units }
    ensures lock { IfOk result (λ made. made.1.lock ≡ made.0) }
    ensures seat { IfOk result (λ made. made.1.view ≡ opening_view part) }
{
    FontCache::make(alloc, capacity, budget)
}

/// A bench with this cache and these units, and the seat, where there was memory for the cache.
pub fn bench_with(
    opened: Result<(FontCache<Decoded>, CacheSeat<Decoded>), NoMemory>,
    units: Units,
) -> Option<(Bench, CacheSeat<Decoded>)>
    ensures same { IfSome result (λ made. made.0.units ≡ units) }
    ensures made { IfSome result (λ made. opened ≡ Ok (made.0.cache, made.1)) }
{
    let Ok((cache, first)) = opened else {
        return None;
    };
    Some((Bench { cache, units }, first))
}
