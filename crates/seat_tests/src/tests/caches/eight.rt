//! Eight threads over a cache of three fonts and ten keys that differ in size alone. Each notes
//! what it was answered.
ghost use Rattle.std.specs.Prelude.{◌≡◌, ◌+◌, ◌^◌, ◌<◌, ◌≤◌, All, IfOk, IfSome, None};
ghost use Rattle.std.specs.Option.{option_map};
ghost use Rattle.std.specs.Arc.{arc_value};
ghost use Rattle.cache_core.specs.Histories.{own, open_claim};
ghost use Rattle.turn_lock.specs.declared.view.Stage.TheVariants.{Idle};
ghost use Rattle.turn_lock.specs.Seats.{AllJoined};

use super::walk::{Note, Walk, first_size, told};
use crate::tests::{Sized, key_of, meet};
use cache_core::{Entry, Look};
use font_cache::{CacheSeat, FontCache};
use outside::FontKey;
use std::alloc::{AllocError as NoMemory, Global};
use std::sync::atomic::AtomicU32;
use std::sync::{Arc, Wait};
use std::test::Fail;
use std::thread;
use std::thread::Threads;

const SEATS: u32 = 8;

const KEYS: u32 = 10;

// A seat, and what it was answered; None where memory ran out or the threads did not meet.
#[derive(Drop)]
struct Caller {
    seat: CacheSeat<Sized>,
    notes: Option<Vec<Note>>,
}

fn ten_keys(alloc: Global) -> Result<Vec<Arc<FontKey>>, NoMemory> {
    let mut keys = Vec::new(alloc);
    for i in 0..KEYS {
        keys.push(key_of(alloc, b"dot", 100 + i)?)?;
    }
    Ok(keys)
}

// Some number below 2^16, by the one before it.
fn next(number: u32) -> u32 {
    number.wrapping_mul(75).wrapping_add(74) % 65537
}

// A look, by a seat that holds no claim. Gives the key where the seat has claimed it.
fn look_up<R: Wait>(
    rt: &R,
    cache: &FontCache<Sized>,
    seat: &mut CacheSeat<Sized>,
    key: &Arc<FontKey>,
) -> Result<(Note, Option<Arc<FontKey>>), NoMemory>
    requires lock { seat.old.lock ≡ cache.now }
    requires idle { seat.old.view.stage ≡ Idle }
    requires room { seat.old.view.drawn < 2 ^ 48 }
    requires free { open_claim (own seat.old.view.number seat.old.view.seen) ≡ None }
    ensures lock { seat.new.lock ≡ seat.old.lock }
    ensures idle { seat.new.view.stage ≡ Idle }
    ensures drawn { seat.new.view.drawn ≡ seat.old.view.drawn + 1 }
    ensures claim { IfOk result (λ told. open_claim (own seat.new.view.number seat.new.view.seen)
        ≡ option_map arc_value told.1) }
{
    let claimed = Arc::try_clone(key);
    match cache.look(rt, seat, key)? {
        Look::Hit(font) => Ok((Note::new(key.size, 'h', 0, font.number), None)),
        Look::Busy => Ok((Note::new(key.size, 'b', 0, 0), None)),
        Look::Claimed => Ok((Note::new(key.size, 'c', 0, 0), Some(claimed?))),
    }
}

// The end of a claim: the seat fills it with a font of this number, or releases it.
fn end_claim<R: Wait>(
    rt: &R,
    alloc: Global,
    cache: &FontCache<Sized>,
    seat: &mut CacheSeat<Sized>,
    key: &Arc<FontKey>,
    number: u32,
    fills: bool,
) -> Result<Note, NoMemory>
    requires lock { seat.old.lock ≡ cache.now }
    requires idle { seat.old.view.stage ≡ Idle }
    requires room { seat.old.view.drawn < 2 ^ 48 }
    requires claim { open_claim (own seat.old.view.number seat.old.view.seen)
        ≡ Some (arc_value key.now) }
    ensures lock { seat.new.lock ≡ seat.old.lock }
    ensures idle { seat.new.view.stage ≡ Idle }
    ensures drawn { seat.new.view.drawn ≤ seat.old.view.drawn + 1 }
    ensures free { IfOk result (λ _. open_claim (own seat.new.view.number seat.new.view.seen)
        ≡ None) }
{
    if !fills {
        cache.release(rt, seat, key);
        return Ok(Note::new(key.size, 'r', 0, 0));
    }
    let font = Arc::new(
        alloc,
        Sized {
            size: key.size,
            number,
        },
    )?;
    match cache.fill(rt, seat, key, font) {
        Ok(fill) => Ok(Note::new(key.size, 'f', first_size(fill.gone.keys()), number)),
        Err(_) => Err(NoMemory),
    }
}

// n calls of one seat: where it holds a claim it ends it, and else it looks some key up. A claim in
// eight is released.
fn calls<R: Wait>(
    rt: &R,
    alloc: Global,
    cache: &FontCache<Sized>,
    seat: &mut CacheSeat<Sized>,
    keys: &[Arc<FontKey>],
    count: u32,
) -> Option<Vec<Note>>
    requires lock { seat.old.lock ≡ cache.now }
    requires idle { seat.old.view.stage ≡ Idle }
    requires room { seat.old.view.drawn ≡ 0 }
    requires free { open_claim (own seat.old.view.number seat.old.view.seen) ≡ None }
    ensures lock { seat.new.lock ≡ seat.old.lock }
    ensures idle { seat.new.view.stage ≡ Idle }
{
    let mut notes = Vec::new(alloc);
    let mut claim = None;
    let mut random = seat.number();
    for i in 0..count {
        random = next(random);
        let number = seat.number().wrapping_mul(count).wrapping_add(i);
        let (note, held) = match claim {
            Some(key) => {
                let fills = random % 8 != 0;
                (
                    end_claim(rt, alloc, cache, seat, &key, number, fills).ok()?,
                    None,
                )
            }
            None => {
                let key = keys.get((random % KEYS) as usize)?;
                look_up(rt, cache, seat, key).ok()?
            }
        };
        claim = held;
        notes.push(note).ok()?;
    }
    Some(notes)
}

// Eight seats that drew nothing.
fn eight_callers(
    alloc: Global,
    cache: &FontCache<Sized>,
    first: &mut CacheSeat<Sized>,
) -> Option<Vec<Caller>>
    requires lock { first.old.lock ≡ cache.now }
    requires first { (first.old.view.number ≡ 0) × (first.old.view.made ≡ 1) }
    ensures lock { first.new.lock ≡ first.old.lock }
    ensures first { (first.new.view.number ≡ 0) × (first.new.view.stage ≡ first.old.view.stage)
        × (first.new.view.joined ≡ first.old.view.joined) }
    ensures made { IfSome result (λ _. first.new.view.made ≡ 9) }
    ensures callers { IfSome result
        (λ callers. All (λ c. (c.seat.lock ≡ cache.now) × (c.seat.view.stage ≡ Idle) ×
        (c.seat.view.drawn ≡ 0) × (open_claim (own c.seat.view.number c.seat.view.seen) ≡ None))
        callers.items) }
{
    let mut callers = Vec::new(alloc);
    for _i in 0..SEATS {
        let seat = cache.split(first);
        callers.push(Caller { seat, notes: None }).ok()?;
    }
    Some(callers)
}

// Each caller makes n calls in a thread of its own, once all threads have met.
fn all_calls<R: Threads + Wait + Sync>(
    rt: &R,
    alloc: Global,
    cache: &FontCache<Sized>,
    keys: &[Arc<FontKey>],
    callers: &mut [Caller],
    count: u32,
)
    requires { All (λ c. (c.seat.lock ≡ cache.now) × (c.seat.view.stage ≡ Idle) ×
        (c.seat.view.drawn ≡ 0) × (open_claim (own c.seat.view.number c.seat.view.seen) ≡ None))
        callers.old }
    ensures { All (λ c. (c.seat.lock ≡ cache.now) × (c.seat.view.stage ≡ Idle)) callers.new }
{
    let gate = AtomicU32::new(0);
    thread::for_each_mut(
        rt,
        callers,
        8,
        &|_, caller: &mut Caller|
            requires { (caller.old.seat.lock ≡ cache.now) × (caller.old.seat.view.stage ≡ Idle)
                × (caller.old.seat.view.drawn ≡ 0)
                × (open_claim (own caller.old.seat.view.number caller.old.seat.view.seen) ≡ None) }
            ensures { (caller.new.seat.lock ≡ cache.entry.now)
                × (caller.new.seat.view.stage ≡ Idle) }
        {
            if meet(&gate, SEATS) {
                caller.notes = calls(rt, alloc, cache, &mut caller.seat, keys, count);
            }
        },
    );
}

// Joins the eight seats, the last first, and gives what they were answered, in that order.
fn join_all(
    alloc: Global,
    cache: &FontCache<Sized>,
    first: &mut CacheSeat<Sized>,
    mut callers: Vec<Caller>,
) -> Option<Vec<Vec<Note>>>
    requires lock { first.old.lock ≡ cache.now }
    requires first { (first.old.view.number ≡ 0) × (first.old.view.stage ≡ Idle)
        × (first.old.view.made ≡ 9) }
    requires callers { All (λ c. (c.seat.lock ≡ cache.now) × (c.seat.view.stage ≡ Idle))
        callers.items }
    ensures lock { first.new.lock ≡ first.old.lock }
    ensures first { (first.new.view.number ≡ 0) × (first.new.view.stage ≡ Idle) }
    ensures joined { IfSome result (λ _. AllJoined first.new.view) }
{
    let mut all = Vec::new(alloc);
    for i in 0..SEATS {
        let Caller { seat, notes } = callers.pop()?;
        if seat.number() != SEATS - i {
            return None;
        }
        cache.join(first, seat);
        all.push(notes?).ok()?;
    }
    Some(all)
}

// The closed history, and what each seat was answered, of the last seat first.
fn eight<R: Threads + Wait + Sync>(
    rt: &R,
    alloc: Global,
    count: u32,
) -> Option<(Vec<Entry>, Vec<Vec<Note>>)> {
    let keys = ten_keys(alloc).ok()?;
    let (cache, mut first) = FontCache::make(alloc, 3, u64::MAX).ok()?;
    let mut callers = eight_callers(alloc, &cache, &mut first)?;
    all_calls(rt, alloc, &cache, &keys, &mut callers, count);
    let notes = join_all(alloc, &cache, &mut first, callers)?;
    Some((cache.close(first), notes))
}

// The next answer that the seat had. The lists are of the last seat first, and each of its last
// call first.
fn next_note(left: &mut [Vec<Note>], seat: u32) -> Option<Note> {
    let place = SEATS.checked_sub(seat)?;
    left.get_mut(place as usize)?.pop()
}

// Whether the entry is what its seat was answered next, and the machine takes it.
fn follows(walk: &mut Walk, left: &mut [Vec<Note>], entry: &Entry) -> bool {
    let Some(note) = next_note(left, entry.seat) else {
        return false;
    };
    note.told == told(entry) && walk.takes(entry.seat, &note)
}

// Turns the lists round, and says whether each has so many notes.
fn turned(left: &mut [Vec<Note>], count: usize) -> bool {
    let mut all = true;
    for notes in left.iter_mut() {
        all = all && notes.len() == count;
        notes.reverse();
    }
    all
}

// Whether each entry follows, and there was no other answer.
fn all_follow(alloc: Global, left: &mut [Vec<Note>], entries: &[Entry]) -> bool {
    let mut walk = Walk::new(alloc);
    let mut all = true;
    for entry in entries {
        all = all && follows(&mut walk, left, entry);
    }
    all && left.iter().all(|notes: &Vec<Note>| notes.is_empty())
}

#[test]
fn eight_threads_over_three_fonts(rt: HostRuntime) -> Result<(), Fail> {
    let count = 2000;
    let (entries, mut left) = eight(&rt, rt.alloc(), count).ok_or(
        "memory ran out, or the threads did not meet",
    )?;
    let were_told = turned(&mut left, 2000);
    let all = all_follow(rt.alloc(), &mut left, &entries);
    assert_eq!(rt; (entries.len(), were_told, all), (16_000, true, true));
    Ok(())
}
