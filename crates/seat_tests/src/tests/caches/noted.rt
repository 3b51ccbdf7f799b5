//! Hits that a seat notes together, before and after another seat's font has driven its font out.
ghost use Rattle.std.specs.Prelude.{◌≡◌, ◌+◌, ◌^◌, ◌≤◌, None, IfSome};
ghost use Rattle.std.specs.Arc.{arc_value};
ghost use Rattle.cache_core.specs.Histories.{own, open_claim};
ghost use Rattle.turn_lock.specs.declared.view.Stage.TheVariants.{Idle};

use super::one_round;
use crate::tests::machine::told;
use crate::tests::{Sized, key_of};
use cache_core::Entry;
use font_cache::{CacheSeat, FontCache};
use outside::FontKey;
use std::alloc::Global;
use std::collections::VecDeque;
use std::sync::{Arc, Wait};
use std::test::Fail;

// Notes so many looks for the key, and gives how many of them are left.
fn notes<R: Wait>(
    rt: &R,
    alloc: Global,
    cache: &FontCache<Sized>,
    seat: &mut CacheSeat<Sized>,
    key: &Arc<FontKey>,
    looks: u32,
) -> Option<usize>
    requires lock { seat.old.lock ≡ cache.now }
    requires idle { seat.old.view.stage ≡ Idle }
    requires room { seat.old.view.drawn + 1 ≤ 2 ^ 48 }
    requires free { open_claim (own seat.old.view.number seat.old.view.seen) ≡ None }
    ensures lock { seat.new.lock ≡ seat.old.lock }
    ensures idle { seat.new.view.stage ≡ Idle }
    ensures number { seat.new.view.number ≡ seat.old.view.number }
    ensures drawn { IfSome result (λ _. seat.new.view.drawn ≡ seat.old.view.drawn + 1) }
    ensures free { IfSome result (λ _. open_claim (own seat.new.view.number seat.new.view.seen)
        ≡ None) }
{
    let mut keys = VecDeque::new(alloc);
    for _ in 0..looks {
        keys.push_back(Arc::try_clone(key).ok()?).ok()?;
    }
    cache.note_hits(rt, seat, &mut keys).ok()?;
    Some(keys.len())
}

// Seat 1 has its font looked up and notes two hits of it. Once seat 2 has looked up another font,
// for which the first one leaves, seat 1 notes one more. Gives how many looks are left each time.
fn evicted_between<R: Wait>(
    rt: &R,
    alloc: Global,
    cache: &FontCache<Sized>,
    one: &mut CacheSeat<Sized>,
    two: &mut CacheSeat<Sized>,
) -> Option<(usize, usize)>
    requires one { (one.old.lock ≡ cache.now) × (one.old.view.stage ≡ Idle)
        × (one.old.view.drawn ≡ 0)
        × (open_claim (own one.old.view.number one.old.view.seen) ≡ None) }
    requires two { (two.old.lock ≡ cache.now) × (two.old.view.stage ≡ Idle)
        × (two.old.view.drawn ≡ 0)
        × (open_claim (own two.old.view.number two.old.view.seen) ≡ None) }
    ensures one { (one.new.lock ≡ one.old.lock) × (one.new.view.stage ≡ Idle)
        × (one.new.view.number ≡ one.old.view.number) }
    ensures two { (two.new.lock ≡ two.old.lock) × (two.new.view.stage ≡ Idle)
        × (two.new.view.number ≡ two.old.view.number) }
{
    let dot = key_of(alloc, b"dot", 128).ok()?;
    let duo = key_of(alloc, b"duo", 128).ok()?;
    one_round(rt, alloc, cache, one, &dot, true).ok()?;
    let before = notes(rt, alloc, cache, one, &dot, 2)?;
    one_round(rt, alloc, cache, two, &duo, true).ok()?;
    let after = notes(rt, alloc, cache, one, &dot, 1)?;
    Some((before, after))
}

// The same with a cache of one font, and the history.
fn noted<R: Wait>(rt: &R, alloc: Global) -> Option<((usize, usize), Vec<Entry>)> {
    let (cache, mut first) = FontCache::make(alloc, 1, 9).ok()?;
    let mut one = cache.split(&mut first);
    let mut two = cache.split(&mut first);
    let left = evicted_between(rt, alloc, &cache, &mut one, &mut two);
    cache.join(&mut first, one);
    cache.join(&mut first, two);
    let entries = cache.close(first);
    Some((left?, entries))
}

// One font's calls, its two hits, and the other font's, for which it leaves.
const HISTORY: &[(char, char)] = &[
    ('o', 'c'),
    ('o', 'f'),
    ('o', 'h'),
    ('o', 'h'),
    ('u', 'c'),
    ('u', 'o'),
];

#[test]
fn hits_of_two_seats(rt: HostRuntime) -> Result<(), Fail> {
    let (left, entries) = noted(&rt, rt.alloc()).ok_or("memory ran out")?;
    let history = told(rt.alloc(), &entries)?;
    assert_eq!(rt; (left, history.as_slice()), ((0, 1), HISTORY));
    Ok(())
}
