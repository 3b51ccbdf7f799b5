//! All workers get a seat, and all seats are joined again.
ghost use Rattle.std.specs.Prelude.{◌≡◌, ℕ, ◌+◌, ◌<◌, [], ◌∷◌, ◌++◌, length, slice_index_or};
ghost use mathlib.Core.List.{IsPrefix};
ghost use Rattle.cache_core.specs.Histories.{own};
ghost use Rattle.turn_lock.specs.Histories.{OwnsSame};
ghost use Rattle.turn_lock.specs.declared.view.Stage.TheVariants.{Idle};
ghost use Rattle.page_workers.specs.Seating.{HasLeft, MayLeave, WasSeated, numbers};

use crate::worker::Worker;
use font_cache::{CacheSeat, FontCache};
use font_decode::Decoded;
use outside::FontSource;

// Gives a worker a seat.
fn seat_one<F: FontSource>(
    cache: &FontCache<Decoded>,
    first: &mut CacheSeat<Decoded>,
    worker: &mut Worker<F>,
)
    requires lock { first.old.lock ≡ cache.now }
    requires number { first.old.view.number ≡ 0 }
    requires room { first.old.view.made < 1024 }
    ensures lock { first.new.lock ≡ first.old.lock }
    ensures same { (first.new.view.number ≡ 0) × (first.new.view.stage ≡ first.old.view.stage)
        × (first.new.view.part ≡ first.old.view.part)
        × (first.new.view.joined ≡ first.old.view.joined) }
    ensures seen { first.new.view.seen ≡ first.old.view.seen }
    ensures made { first.new.view.made ≡ first.old.view.made + 1 }
    ensures seated { WasSeated cache.now first.old.view.part first.old.view.made
        worker.old worker.new }
{
    worker.seat = Some(cache.split(first));
}

/// Gives each worker a seat that has made no call: worker k, counted from 0, gets seat k + 1. Seat
/// 0 makes none meanwhile. It takes no memory.
pub fn seat_all<F: FontSource>(
    cache: &FontCache<Decoded>,
    first: &mut CacheSeat<Decoded>,
    workers: &mut [Worker<F>],
)
    requires lock { first.old.lock ≡ cache.now }
    requires number { first.old.view.number ≡ 0 }
    requires idle { first.old.view.stage ≡ Idle }
    requires made { first.old.view.made ≡ 1 }
    requires few { length workers.old < 1023 }
    ensures lock { first.new.lock ≡ first.old.lock }
    ensures same { (first.new.view.number ≡ 0) × (first.new.view.stage ≡ Idle)
        × (first.new.view.part ≡ first.old.view.part)
        × (first.new.view.joined ≡ first.old.view.joined) }
    ensures seen { first.new.view.seen ≡ first.old.view.seen }
    ensures made { first.new.view.made ≡ length workers.old + 1 }
    ensures seated { (k : ℕ) (d : _) → k < length workers.old
        → WasSeated cache.now first.old.view.part (k + 1)
        (slice_index_or workers.old k d) (slice_index_or workers.new k d) }
{
    for k in 0..workers.len() {
        seat_one(cache, first, &mut workers[k]);
    }
}

// Takes a worker's seat in.
fn join_one<F: FontSource>(
    cache: &FontCache<Decoded>,
    first: &mut CacheSeat<Decoded>,
    worker: &mut Worker<F>,
    number: u32,
)
    requires lock { first.old.lock ≡ cache.now }
    requires number { first.old.view.number ≡ 0 }
    requires idle { first.old.view.stage ≡ Idle }
    requires leaves { MayLeave cache.now number worker.old }
    ensures lock { first.new.lock ≡ first.old.lock }
    ensures same { (first.new.view.number ≡ 0) × (first.new.view.stage ≡ Idle)
        × (first.new.view.part ≡ first.old.view.part)
        × (first.new.view.made ≡ first.old.view.made) }
    ensures mine { own 0 first.new.view.seen ≡ own 0 first.old.view.seen }
    ensures joined { first.new.view.joined ≡ first.old.view.joined ++ number ∷ [] }
    ensures begins { IsPrefix first.old.view.seen first.new.view.seen }
    ensures left { HasLeft first.new.view.seen number worker.old worker.new }
    ensures before { OwnsSame first.old.view.joined first.new.view.seen first.old.view.seen }
{
    let Some(seat) = worker.seat.take() else {
        unreachable!()
    };
    cache.join(first, seat);
}

/// Takes the seats of all workers, in their order, and joins them to seat 0, which makes no call
/// meanwhile. It takes no memory.
pub fn join_all<F: FontSource>(
    cache: &FontCache<Decoded>,
    first: &mut CacheSeat<Decoded>,
    workers: &mut [Worker<F>],
)
    requires lock { first.old.lock ≡ cache.now }
    requires number { first.old.view.number ≡ 0 }
    requires idle { first.old.view.stage ≡ Idle }
    requires joined { first.old.view.joined ≡ [] }
    requires few { length workers.old < 1023 }
    requires leave { (k : ℕ) (d : _) → k < length workers.old
        → MayLeave cache.now (k + 1) (slice_index_or workers.old k d) }
    ensures lock { first.new.lock ≡ first.old.lock }
    ensures same { (first.new.view.number ≡ 0) × (first.new.view.stage ≡ Idle)
        × (first.new.view.part ≡ first.old.view.part)
        × (first.new.view.made ≡ first.old.view.made) }
    ensures mine { own 0 first.new.view.seen ≡ own 0 first.old.view.seen }
    ensures joined { first.new.view.joined ≡ numbers (length workers.old) }
    ensures left { (k : ℕ) (d : _) → k < length workers.old
        → HasLeft first.new.view.seen (k + 1)
        (slice_index_or workers.old k d) (slice_index_or workers.new k d) }
{
    let mut number = 0;
    for k in 0..workers.len() {
        number += 1;
        join_one(cache, first, &mut workers[k], number);
    }
}
