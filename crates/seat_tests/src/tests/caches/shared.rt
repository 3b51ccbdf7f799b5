//! Two seats that share one key: a fill, and a claim that is given up.
ghost use Rattle.std.specs.Prelude.{◌≡◌, ◌+◌, ◌^◌, ◌<◌, None, Some, IfSome, IsTrue};
ghost use Rattle.std.specs.Arc.{arc_value};
ghost use Rattle.cache_core.specs.Histories.{own, open_claim};
ghost use Rattle.font_cache.specs.Turns.{TookTurn};
ghost use Rattle.turn_lock.specs.declared.view.Stage.TheVariants.{Idle};

use super::one_key::are_told;
use crate::tests::{Sized, key_of};
use cache_core::{Entry, Look};
use font_cache::{CacheSeat, FontCache};
use outside::FontKey;
use std::alloc::Global;
use std::sync::{Arc, Wait};
use std::test::Fail;

// What a look came to. None of these holds where memory ran out.
#[derive(Clone, Copy)]
struct Reply {
    claimed: bool,
    busy: bool,
    // The number of the font that was found.
    font: Option<u32>,
}

// A look, by a seat that holds no claim.
fn look<R: Wait>(
    rt: &R,
    cache: &FontCache<Sized>,
    seat: &mut CacheSeat<Sized>,
    key: &Arc<FontKey>,
) -> Reply
    requires lock { seat.old.lock ≡ cache.now }
    requires idle { seat.old.view.stage ≡ Idle }
    requires room { seat.old.view.drawn < 2 ^ 48 }
    requires free { open_claim (own seat.old.view.number seat.old.view.seen) ≡ None }
    ensures turn { TookTurn seat.old seat.new }
    ensures claimed { IsTrue result.claimed
        → open_claim (own seat.new.view.number seat.new.view.seen) ≡ Some (arc_value key.now) }
    ensures busy { IsTrue result.busy
        → open_claim (own seat.new.view.number seat.new.view.seen) ≡ None }
{
    let looked = cache.look(rt, seat, key);
    Reply {
        claimed: matches!(looked, Ok(Look::Claimed)),
        busy: matches!(looked, Ok(Look::Busy)),
        font: match looked {
            Ok(Look::Hit(font)) => Some(font.number),
            _ => None,
        },
    }
}

// A seat that holds a claim fills it. Says whether the font was kept and none left.
fn fills<R: Wait>(
    rt: &R,
    cache: &FontCache<Sized>,
    seat: &mut CacheSeat<Sized>,
    key: &Arc<FontKey>,
    font: Arc<Sized>,
) -> bool
    requires lock { seat.old.lock ≡ cache.now }
    requires idle { seat.old.view.stage ≡ Idle }
    requires room { seat.old.view.drawn < 2 ^ 48 }
    requires claim { open_claim (own seat.old.view.number seat.old.view.seen)
        ≡ Some (arc_value key.now) }
    requires size { (arc_value font).size ≡ (arc_value key.now).size }
    ensures turn { TookTurn seat.old seat.new }
{
    match cache.fill(rt, seat, key, font) {
        Ok(fill) => fill.kept && fill.gone.keys().is_empty(),
        Err(_) => false,
    }
}

fn font_of(alloc: Global, number: u32) -> Option<Arc<Sized>>
    ensures { IfSome result (λ font. (arc_value font).size ≡ 128) }
{
    Arc::new(alloc, Sized { size: 128, number }).ok()
}

// Seat 1 looks the key up, seat 2 does, seat 1 fills it, and seat 2 looks it up again. Gives the
// number of the font that it finds, where the fill kept it and none left.
fn share<R: Wait>(
    rt: &R,
    cache: &FontCache<Sized>,
    one: &mut CacheSeat<Sized>,
    two: &mut CacheSeat<Sized>,
    key: &Arc<FontKey>,
    font: Arc<Sized>,
) -> Option<u32>
    requires one { (one.old.lock ≡ cache.now) × (one.old.view.stage ≡ Idle)
        × (one.old.view.drawn ≡ 0)
        × (open_claim (own one.old.view.number one.old.view.seen) ≡ None) }
    requires two { (two.old.lock ≡ cache.now) × (two.old.view.stage ≡ Idle)
        × (two.old.view.drawn ≡ 0)
        × (open_claim (own two.old.view.number two.old.view.seen) ≡ None) }
    requires size { (arc_value font).size ≡ (arc_value key.now).size }
    ensures one { (one.new.lock ≡ one.old.lock) × (one.new.view.stage ≡ Idle)
        × (one.new.view.number ≡ one.old.view.number) }
    ensures two { (two.new.lock ≡ two.old.lock) × (two.new.view.stage ≡ Idle)
        × (two.new.view.number ≡ two.old.view.number) }
{
    if !look(rt, cache, one, key).claimed || !look(rt, cache, two, key).busy {
        return None;
    }
    if !fills(rt, cache, one, key, font) {
        return None;
    }
    look(rt, cache, two, key).font
}

// Seat 0 claims the key, as for a load that fails, while seat 1 is answered that it is busy. When
// seat 0 has released it, seat 1 claims it and fills it. Gives the number of the font that seat 0
// finds.
fn give_up<R: Wait>(
    rt: &R,
    cache: &FontCache<Sized>,
    first: &mut CacheSeat<Sized>,
    one: &mut CacheSeat<Sized>,
    key: &Arc<FontKey>,
    font: Arc<Sized>,
) -> Option<u32>
    requires first { (first.old.lock ≡ cache.now) × (first.old.view.stage ≡ Idle)
        × (first.old.view.drawn ≡ 0)
        × (open_claim (own first.old.view.number first.old.view.seen) ≡ None) }
    requires one { (one.old.lock ≡ cache.now) × (one.old.view.stage ≡ Idle)
        × (one.old.view.drawn ≡ 0)
        × (open_claim (own one.old.view.number one.old.view.seen) ≡ None) }
    requires size { (arc_value font).size ≡ (arc_value key.now).size }
    ensures first { (first.new.lock ≡ first.old.lock) × (first.new.view.stage ≡ Idle)
        × (first.new.view.number ≡ first.old.view.number)
        × (first.new.view.made ≡ first.old.view.made)
        × (first.new.view.joined ≡ first.old.view.joined) }
    ensures one { (one.new.lock ≡ one.old.lock) × (one.new.view.stage ≡ Idle)
        × (one.new.view.number ≡ one.old.view.number) }
{
    if !look(rt, cache, first, key).claimed || !look(rt, cache, one, key).busy {
        return None;
    }
    cache.release(rt, first, key);
    if !look(rt, cache, one, key).claimed || !fills(rt, cache, one, key, font) {
        return None;
    }
    look(rt, cache, first, key).font
}

// Whether a claim is given up, how many fonts are kept, and the number of the font, which is what
// it weighs and what the fonts that are kept may weigh.
type Shared = (bool, usize, u32);

// The number of the font that is found, how many turns seat 0 drew, and the history.
fn shared<R: Wait>(
    rt: &R,
    alloc: Global,
    wanted: &Shared,
) -> Option<(Option<u32>, u64, Vec<Entry>)> {
    let (gives_up, capacity, number) = *wanted;
    let key = key_of(alloc, b"dot", 128).ok()?;
    let font = font_of(alloc, number)?;
    let capacity = capacity.max(1).min(256);
    let (cache, mut first) = FontCache::make(alloc, capacity, u64::from(number)).ok()?;
    let mut one = cache.split(&mut first);
    let mut two = cache.split(&mut first);
    let found = if gives_up {
        give_up(rt, &cache, &mut first, &mut one, &key, font)
    } else {
        share(rt, &cache, &mut one, &mut two, &key, font)
    };
    cache.join(&mut first, one);
    cache.join(&mut first, two);
    Some((found, first.drawn(), cache.close(first)))
}

// With how many turns seat 0 drew, and what the seats did.
static SHARED: [(Shared, u64, &'static [(u32, char)]); 2] = [
    ((false, 2, 7), 0, &[(1, 'c'), (2, 'b'), (1, 'f'), (2, 'h')]),
    (
        (true, 1, 8),
        3,
        &[(0, 'c'), (1, 'b'), (0, 'r'), (1, 'c'), (1, 'f'), (0, 'h')],
    ),
];

#[test]
fn one_key_and_two_seats(rt: HostRuntime) -> Result<(), Fail> {
    for (wanted, turns, calls) in SHARED.iter() {
        let (found, drawn, entries) = shared(&rt, rt.alloc(), wanted).ok_or("memory ran out")?;
        assert_eq!(rt;
            (found, drawn, are_told(&entries, calls)),
            (Some(wanted.2), *turns, true),
            "font {}",
            wanted.2
        );
    }
    Ok(())
}
