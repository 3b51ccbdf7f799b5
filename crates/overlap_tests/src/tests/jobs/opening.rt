//! A new cache.
ghost use Rattle.std.specs.Prelude.{◌≡◌, ◌≤◌, IfOk};
ghost use Rattle.cache_core.specs.declared.common.Common.{Common};
ghost use Rattle.turn_lock.specs.Views.{opening_view};

use cache_core::Stands;
use font_cache::{CacheSeat, FontCache};
use pixel_round::Units;
use std::alloc::{AllocError as NoMemory, Global};

/// An empty cache for the fonts of documents with these units, and seat 0 of it.
pub fn open_cache<T: Stands>(
    alloc: Global,
    capacity: usize,
    budget: u64,
    _units: &Units,
) -> Result<(FontCache<T>, CacheSeat<T>), NoMemory>
    ghost part: { Common }
    requires some_font { 1 ≤ capacity }
    requires few_fonts { capacity ≤ 256 }
    requires capacity { capacity ≡ part.capacity }
    requires budget { budget ≡ part.budget }
    requires units { _units.now ≡ part.units }
    ensures lock { IfOk result (λ made. made.1.lock ≡ made.0) }
    ensures seat { IfOk result (λ made. made.1.view ≡ opening_view part) }
{
    FontCache::make(alloc, capacity, budget)
}
