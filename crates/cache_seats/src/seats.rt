//! Seats of one font cache.
ghost use Rattle.std.specs.Prelude.{◌≡◌, ◌+◌, ◌-◌, ◌^◌, ◌<◌, ◌≤◌, All, IfSome, None};
ghost use Rattle.cache_core.specs.Histories.{own, open_claim};
ghost use Rattle.turn_lock.specs.declared.view.Stage.TheVariants.{Idle};
ghost use Rattle.turn_lock.specs.Views.{opening_view};

use crate::font::Blank;
use crate::looking::{Looker, rate};
use cache_core::Look;
use font_cache::{CacheSeat, FontCache};
use outside::FontKey;
use std::alloc::Global;
use std::sync::{Arc, Wait};
use std::thread::Threads;
use std::time::{Clock, Duration};

// A seat at a cache.
#[derive(Drop)]
struct Seated<'c> {
    cache: &'c FontCache<Blank>,
    seat: CacheSeat<Blank>,
}

impl Looker for Seated<'_> {
    ghost use Rattle.cache_core.specs.Histories.{own, open_claim};
    ghost use Rattle.turn_lock.specs.declared.view.Stage.TheVariants.{Idle};

    ghost ready = { λ s. (s.seat.lock ≡ s.cache.now) × (s.seat.view.stage ≡ Idle)
        × (open_claim (own s.seat.view.number s.seat.view.seen) ≡ None) };

    ghost room = { λ s. 2 ^ 48 - s.seat.view.drawn };

    fn look<R: Wait>(&mut self, rt: &R, key: &Arc<FontKey>) -> bool {
        matches!(self.cache.look(rt, &mut self.seat, key), Ok(Look::Hit(_)))
    }
}

// Looks the font up at a new cache, and fills the claim. Says whether it did.
fn fill_first<R: Wait>(
    rt: &R,
    alloc: Global,
    cache: &FontCache<Blank>,
    first: &mut CacheSeat<Blank>,
    key: &Arc<FontKey>,
) -> bool
    requires lock { first.old.lock ≡ cache.now }
    requires view { first.old.view ≡ opening_view first.old.view.part }
    ensures lock { first.new.lock ≡ cache.now }
    ensures view { (first.new.view.number ≡ 0) × (first.new.view.made ≡ 1) }
{
    let Ok(font) = Arc::new(alloc, Blank {}) else {
        return false;
    };
    match cache.look(rt, first, key) {
        Ok(Look::Claimed) => cache.fill(rt, first, key, font).is_ok(),
        _ => false,
    }
}

// So many seats of a cache that have made no call.
fn split_off<'c>(
    alloc: Global,
    cache: &'c FontCache<Blank>,
    first: &mut CacheSeat<Blank>,
    all: u32,
) -> Option<Vec<Seated<'c>>>
    requires lock { first.old.lock ≡ cache.now }
    requires view { (first.old.view.number ≡ 0) × (first.old.view.made ≡ 1) }
    requires few { all ≤ 1000 }
    ensures { IfSome result (λ seats. All
        (λ s. (s.seat.lock ≡ s.cache.now) × (s.seat.view.stage ≡ Idle) × (s.seat.view.drawn ≡ 0)
        × (open_claim (own s.seat.view.number s.seat.view.seen) ≡ None)) seats.items) }
{
    let mut seats = Vec::new(alloc);
    for _i in 0..all {
        let seat = cache.split(first);
        seats.push(Seated { cache, seat }).ok()?;
    }
    Some(seats)
}

/// How many look-ups a second n seats of one cache make together.
pub(crate) fn rate_by_turns<R: Threads + Wait + Sync + Clock>(
    rt: &R,
    alloc: Global,
    key: &Arc<FontKey>,
    all: u32,
    steps: u64,
    time: Duration,
) -> Option<u64>
    requires { all ≤ 1000 }
{
    let (cache, mut first) = FontCache::make(alloc, 2, 0).ok()?;
    if !fill_first(rt, alloc, &cache, &mut first, key) {
        return None;
    }
    let mut seats = split_off(alloc, &cache, &mut first, all)?;
    rate(rt, &mut seats, key, steps, time)
}
