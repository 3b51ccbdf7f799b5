//! Threads that look in one cache under std's `Mutex`, which gives turns in any order.
ghost use Rattle.std.specs.Prelude.{◌≡◌, ◌<◌, ◌≤◌, [], ◌^◌, IsTrue};

use crate::font::Blank;
use crate::looking::{Looker, rate};
use crate::pace::MAX_TURNS;
use cache_core::{CacheState, Look};
use outside::FontKey;
use std::alloc::Global;
use std::sync::{Arc, Mutex, Wait};
use std::thread::Threads;
use std::time::{Clock, Duration};

// A cache in which nobody has a claim.
#[derive(Drop)]
struct Guarded {
    state: CacheState<Blank>,
    ghost free: { state.claims ≡ [] },
}

// Looks the key up, and gives up the claim that it may get. Says whether it was a hit.
fn is_hit(state: &mut CacheState<Blank>, key: &Arc<FontKey>) -> bool
    requires free { state.old.claims ≡ [] }
    ensures free { state.new.claims ≡ [] }
{
    if state.turns() >= MAX_TURNS {
        return false;
    }
    match state.look(1, key) {
        Ok(Look::Hit(_)) => true,
        Ok(Look::Claimed) => {
            state.release(1, key);
            false
        }
        Ok(Look::Busy) | Err(_) => false,
    }
}

// Looks the font up in an empty cache, and fills the claim. Says whether it did.
fn fill_first(alloc: Global, state: &mut CacheState<Blank>, key: &Arc<FontKey>) -> bool
    requires turns { state.old.turns ≡ 0 }
    requires free { state.old.claims ≡ [] }
    ensures free { IsTrue result → state.new.claims ≡ [] }
{
    let Ok(font) = Arc::new(alloc, Blank {}) else {
        return false;
    };
    match state.look(1, key) {
        Ok(Look::Claimed) => state.fill(1, key, font).is_ok(),
        _ => false,
    }
}

// A cache that has the one font.
fn filled(alloc: Global, key: &Arc<FontKey>) -> Option<Guarded> {
    let mut state = CacheState::new(alloc, 2, 0).ok()?;
    if fill_first(alloc, &mut state, key) {
        Some(Guarded { state })
    } else {
        None
    }
}

// Who looks under the mutex.
#[derive(Drop)]
struct Locker<'c> {
    cache: &'c Mutex<Guarded>,
}

impl Looker for Locker<'_> {
    ghost ready = { λ l. Unit {0} };

    ghost room = { λ l. 2 ^ 48 };

    fn look<R: Wait>(&mut self, rt: &R, key: &Arc<FontKey>) -> bool {
        is_hit(&mut self.cache.lock(rt).state, key)
    }
}

// So many of them.
fn lockers<'c>(alloc: Global, cache: &'c Mutex<Guarded>, all: u32) -> Option<Vec<Locker<'c>>> {
    let mut lockers = Vec::new(alloc);
    for _i in 0..all {
        lockers.push(Locker { cache }).ok()?;
    }
    Some(lockers)
}

/// How many look-ups a second n threads make together.
pub(crate) fn rate_by_mutex<R: Threads + Wait + Sync + Clock>(
    rt: &R,
    alloc: Global,
    key: &Arc<FontKey>,
    all: u32,
    steps: u64,
    time: Duration,
) -> Option<u64> {
    let cache = Mutex::new(filled(alloc, key)?);
    let mut lockers = lockers(alloc, &cache, all)?;
    rate(rt, &mut lockers, key, steps, time)
}
