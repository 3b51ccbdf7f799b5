//! Threads that take turns over a diary of who was there.
ghost use Rattle.std.specs.Prelude.{◌≡◌, ◌+◌, ◌^◌, ◌<◌, ◌≤◌, All, length, IfSome, IsTrue};
ghost use Rattle.cache_core.specs.Histories.{own};
ghost use Rattle.turn_lock.specs.declared.view.Stage.TheVariants.{Idle};
ghost use Rattle.turn_lock.specs.Diaries.{calls_by};

use super::meet;
use std::alloc::Global;
use std::sync::Wait;
use std::sync::atomic::{AtomicU32, Ordering};
use std::test::Fail;
use std::thread;
use std::thread::Threads;
use turn_lock::example::{Diary, turn, two_turns};
use turn_lock::{Seat, TurnLock};

mod alone;
mod late;

// n turns. False where memory ran out.
fn turns<R: Wait>(rt: &R, lock: &TurnLock<Diary>, seat: &mut Seat<Diary>, count: u64) -> bool
    requires lock { seat.old.lock ≡ lock.now }
    requires idle { seat.old.view.stage ≡ Idle }
    requires room { seat.old.view.drawn + count ≤ 2 ^ 48 }
    ensures lock { seat.new.lock ≡ seat.old.lock }
    ensures idle { seat.new.view.stage ≡ Idle }
    ensures number { seat.new.view.number ≡ seat.old.view.number }
    ensures all { IsTrue result → length (own seat.old.view.number seat.new.view.seen)
        ≡ length (own seat.old.view.number seat.old.view.seen) + count }
{
    let mut all = true;
    for _i in 0..count {
        all = turn(rt, lock, seat).is_ok() && all;
    }
    all
}

// Two threads meet, and then take n turns each. With an answer, the diary has as many calls of each
// seat.
fn two<R: Threads + Wait + Sync>(rt: &R, alloc: Global, count: u64) -> Option<Diary>
    requires { count ≤ 2 ^ 48 }
    ensures one { IfSome result (λ d. length (own 1 (calls_by d.seats.items)) ≡ count) }
    ensures two { IfSome result (λ d. length (own 2 (calls_by d.seats.items)) ≡ count) }
{
    let Ok((lock, mut first)) = TurnLock::make(alloc, Diary::new(alloc)) else {
        return None;
    };
    let one = lock.split(&mut first);
    let two = lock.split(&mut first);
    let by = &lock;
    let gate = AtomicU32::new(0);
    let met = &gate;
    let ((one, ones), (two, twos)) = thread::join(
        rt,
        move || -> (Seat<Diary>, bool)
            requires { (one.lock ≡ by.now) × (one.view.stage ≡ Idle)
                × (one.view.drawn + count ≤ 2 ^ 48) }
            ensures lock { result.0.lock ≡ one.lock }
            ensures idle { result.0.view.stage ≡ Idle }
            ensures number { result.0.view.number ≡ one.view.number }
            ensures all { IsTrue result.1 → length (own one.view.number result.0.view.seen)
                ≡ length (own one.view.number one.view.seen) + count }
        {
            let mut one = one;
            let all = meet(met, 2) && turns(rt, by, &mut one, count);
            (one, all)
        },
        move || -> (Seat<Diary>, bool)
            requires { (two.lock ≡ by.now) × (two.view.stage ≡ Idle)
                × (two.view.drawn + count ≤ 2 ^ 48) }
            ensures lock { result.0.lock ≡ two.lock }
            ensures idle { result.0.view.stage ≡ Idle }
            ensures number { result.0.view.number ≡ two.view.number }
            ensures all { IsTrue result.1 → length (own two.view.number result.0.view.seen)
                ≡ length (own two.view.number two.view.seen) + count }
        {
            let mut two = two;
            let all = meet(met, 2) && turns(rt, by, &mut two, count);
            (two, all)
        },
    );
    lock.join(&mut first, one);
    lock.join(&mut first, two);
    let diary = lock.close(first);
    if ones && twos { Some(diary) } else { None }
}

// n seats that drew nothing.
fn some_seats(
    alloc: Global,
    lock: &TurnLock<Diary>,
    first: &mut Seat<Diary>,
    all: u32,
) -> Option<Vec<Seat<Diary>>>
    requires lock { first.old.lock ≡ lock.now }
    requires first { (first.old.view.number ≡ 0) × (first.old.view.made ≡ 1) }
    requires few { all ≤ 1000 }
    ensures first { (first.new.lock ≡ first.old.lock)
        × (first.new.view.stage ≡ first.old.view.stage)
        × (first.new.view.drawn ≡ first.old.view.drawn) }
    ensures seats { IfSome result
        (λ seats. All (λ s. (s.lock ≡ lock.now) × (s.view.stage ≡ Idle) × (s.view.drawn ≡ 0))
        seats.items) }
{
    let mut seats = Vec::new(alloc);
    for _i in 0..all {
        let seat = lock.split(first);
        if seats.push(seat).is_err() {
            return None;
        }
    }
    Some(seats)
}

// Each seat takes n turns in a thread of its own, once all threads have met.
fn all_turns<R: Threads + Wait + Sync>(
    rt: &R,
    lock: &TurnLock<Diary>,
    seats: &mut [Seat<Diary>],
    all: u32,
    count: u64,
) -> bool
    requires some { 0 < all }
    requires seats { All (λ s. (s.lock ≡ lock.now) × (s.view.stage ≡ Idle) × (s.view.drawn ≡ 0))
        seats.old }
    requires room { count ≤ 2 ^ 48 }
{
    let gate = AtomicU32::new(0);
    let good = AtomicU32::new(0);
    thread::for_each_mut(
        rt,
        seats,
        all as usize,
        &|_, seat: &mut Seat<Diary>|
            requires { (seat.old.lock ≡ lock.now) × (seat.old.view.stage ≡ Idle)
                × (seat.old.view.drawn + count ≤ 2 ^ 48) }
        {
            if meet(&gate, all) && turns(rt, lock, seat, count) {
                good.fetch_add(1, Ordering::SeqCst);
            }
        },
    );
    good.load(Ordering::SeqCst) == all
}

// n threads, each with a seat of its own.
fn crowd<R: Threads + Wait + Sync>(rt: &R, alloc: Global, all: u32, count: u64) -> Option<Diary>
    requires some { 0 < all }
    requires few { all ≤ 1000 }
    requires room { count ≤ 2 ^ 48 }
{
    let Ok((lock, mut first)) = TurnLock::make(alloc, Diary::new(alloc)) else {
        return None;
    };
    let mut seats = some_seats(alloc, &lock, &mut first, all)?;
    let good = all_turns(rt, &lock, &mut seats, all, count);
    let diary = lock.take(rt, &mut first);
    if good { Some(diary) } else { None }
}

// Whether the seats 1 to `seats`, and no others, had so many turns each.
fn had_all(diary: &Diary, seats: u32, count: u64) -> bool {
    let mut left = diary.seats.len() as u64;
    let mut all = true;
    for seat in 1..=seats {
        let turns = diary.seats.iter().filter(|&&s: &&u32| s == seat).count() as u64;
        all = all && turns == count;
        left = left.saturating_sub(turns);
    }
    all && left == 0
}

#[test]
fn two_turns_in_order(rt: HostRuntime) -> Result<(), Fail> {
    let diary = two_turns(&rt, rt.alloc())?;
    assert_eq!(rt;
        (diary.seats.as_slice(), diary.turns),
        ([0, 1].as_slice(), 2)
    );
    Ok(())
}

#[test]
fn turns_two(rt: HostRuntime) -> Result<(), Fail> {
    let diary = two(&rt, rt.alloc(), 100).ok_or("memory ran out, or the threads did not meet")?;
    assert_eq!(rt; (diary.turns, had_all(&diary, 2, 100)), (200, true));
    Ok(())
}

// How many turns a crowd had, and whether each seat had its own.
fn crowded<R: Threads + Wait + Sync>(
    rt: &R,
    alloc: Global,
    seats: u32,
    count: u64,
) -> Option<(u64, bool)> {
    if seats == 0 || seats > 1000 || count > 1000 {
        return None;
    }
    let diary = crowd(rt, alloc, seats, count)?;
    Some((diary.turns, had_all(&diary, seats, count)))
}

// How many seats there are, and how many turns each has. The second has more seats than there are
// places to sleep at, and than processors.
static CROWDS: [(u32, u64); 2] = [(8, 1000), (40, 500)];

#[test]
fn crowds_end(rt: HostRuntime) {
    for (seats, count) in CROWDS.iter() {
        let turns = u64::from(*seats).wrapping_mul(*count);
        assert_eq!(rt;
            crowded(&rt, rt.alloc(), *seats, *count),
            Some((turns, true)),
            "{seats} seats"
        );
    }
}
