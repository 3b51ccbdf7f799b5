//! Seats that share a cache, on one thread, on two and on eight.
ghost use Rattle.std.specs.Prelude.{◌≡◌, ◌+◌, ◌^◌, ◌≤◌, None, IfOk, IfSome};
ghost use Rattle.std.specs.Arc.{arc_value};
ghost use Rattle.cache_core.specs.Histories.{own, open_claim};
ghost use Rattle.turn_lock.specs.declared.view.Stage.TheVariants.{Idle};

use super::{Sized, key_of, meet};
use cache_core::{Entry, Look};
use font_cache::{CacheSeat, FontCache};
use one_key::are_of_one_key;
use outside::FontKey;
use std::alloc::{AllocError as NoMemory, Global};
use std::sync::atomic::{AtomicU32, Ordering};
use std::sync::{Arc, Wait};
use std::test::Fail;
use std::thread;
use std::thread::Threads;

mod eight;
mod noted;
mod one_key;
mod shared;
mod walk;

// One look, and the end of the claim that it gave. Tells how many calls were accepted.
fn one_round<R: Wait>(
    rt: &R,
    alloc: Global,
    cache: &FontCache<Sized>,
    seat: &mut CacheSeat<Sized>,
    key: &Arc<FontKey>,
    fills: bool,
) -> Result<u32, NoMemory>
    requires lock { seat.old.lock ≡ cache.now }
    requires idle { seat.old.view.stage ≡ Idle }
    requires room { seat.old.view.drawn + 3 ≤ 2 ^ 48 }
    requires free { open_claim (own seat.old.view.number seat.old.view.seen) ≡ None }
    requires size { (arc_value key.now).size ≡ 128 }
    ensures lock { seat.new.lock ≡ seat.old.lock }
    ensures idle { seat.new.view.stage ≡ Idle }
    ensures number { seat.new.view.number ≡ seat.old.view.number }
    ensures drawn { seat.new.view.drawn ≤ seat.old.view.drawn + 3 }
    ensures free { open_claim (own seat.new.view.number seat.new.view.seen) ≡ None }
    ensures few { IfOk result (λ calls. calls ≤ 2) }
{
    let font = Arc::new(
        alloc,
        Sized {
            size: 128,
            number: 9,
        },
    )?;
    let Look::Claimed = cache.look(rt, seat, key)? else {
        return Ok(1);
    };
    if !fills {
        cache.release(rt, seat, key);
        return Ok(2);
    }
    if cache.fill(rt, seat, key, font).is_ok() {
        return Ok(2);
    }
    cache.release(rt, seat, key);
    Err(NoMemory)
}

// n rounds, of which the last fills. Tells how many calls were accepted, if memory sufficed.
fn rounds<R: Wait>(
    rt: &R,
    alloc: Global,
    cache: &FontCache<Sized>,
    seat: &mut CacheSeat<Sized>,
    key: &Arc<FontKey>,
    count: u32,
) -> Option<u32>
    requires lock { seat.old.lock ≡ cache.now }
    requires idle { seat.old.view.stage ≡ Idle }
    requires room { seat.old.view.drawn ≡ 0 }
    requires free { open_claim (own seat.old.view.number seat.old.view.seen) ≡ None }
    requires size { (arc_value key.now).size ≡ 128 }
    requires few { count ≤ 1000 }
    ensures lock { seat.new.lock ≡ seat.old.lock }
    ensures idle { seat.new.view.stage ≡ Idle }
    ensures number { seat.new.view.number ≡ seat.old.view.number }
    ensures few { IfSome result (λ calls. calls ≤ 2000) }
{
    let mut calls = 0;
    for i in 0..count {
        calls += one_round(rt, alloc, cache, seat, key, i + 1 == count).ok()?;
    }
    Some(calls)
}

// Two threads meet, and then look up one key in turn. Tells how many calls were accepted, and the
// history.
fn two_threads<R: Threads + Wait + Sync>(rt: &R, alloc: Global) -> Option<(u32, Vec<Entry>)> {
    let key = key_of(alloc, b"dot", 128).ok()?;
    let (cache, mut first) = FontCache::make(alloc, 2, 9).ok()?;
    let one = cache.split(&mut first);
    let two = cache.split(&mut first);
    let by = &cache;
    let dot = &key;
    let gate = AtomicU32::new(0);
    let met = &gate;
    let ((one, ones), (two, twos)) = thread::join(
        rt,
        move || -> (CacheSeat<Sized>, Option<u32>)
            requires { (one.lock ≡ by.now) × (one.view.stage ≡ Idle) × (one.view.drawn ≡ 0)
                × (open_claim (own one.view.number one.view.seen) ≡ None)
                × ((arc_value dot.now).size ≡ 128) }
            ensures lock { result.0.lock ≡ one.lock }
            ensures idle { result.0.view.stage ≡ Idle }
            ensures number { result.0.view.number ≡ one.view.number }
            ensures few { IfSome result.1 (λ calls. calls ≤ 2000) }
        {
            let mut one = one;
            let met = meet(met, 2);
            let calls = rounds(rt, alloc, by, &mut one, dot, 1000);
            (one, if met { calls } else { None })
        },
        move || -> (CacheSeat<Sized>, Option<u32>)
            requires { (two.lock ≡ by.now) × (two.view.stage ≡ Idle) × (two.view.drawn ≡ 0)
                × (open_claim (own two.view.number two.view.seen) ≡ None)
                × ((arc_value dot.now).size ≡ 128) }
            ensures lock { result.0.lock ≡ two.lock }
            ensures idle { result.0.view.stage ≡ Idle }
            ensures number { result.0.view.number ≡ two.view.number }
            ensures few { IfSome result.1 (λ calls. calls ≤ 2000) }
        {
            let mut two = two;
            let met = meet(met, 2);
            let calls = rounds(rt, alloc, by, &mut two, dot, 1000);
            (two, if met { calls } else { None })
        },
    );
    cache.join(&mut first, one);
    cache.join(&mut first, two);
    let entries = cache.close(first);
    Some((ones? + twos?, entries))
}

#[test]
fn a_thousand_rounds_of_two_threads(rt: HostRuntime) -> Result<(), Fail> {
    let (calls, entries) = two_threads(&rt, rt.alloc()).ok_or(
        "memory ran out, or the threads did not meet",
    )?;
    assert_eq!(rt;
        (entries.len(), are_of_one_key(&entries)),
        (calls as usize, true)
    );
    Ok(())
}
