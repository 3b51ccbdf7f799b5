//! Claims on one thread, and in threads that overlap.
ghost use Rattle.std.specs.Prelude.{◌≡◌, ◌+◌, ◌*◌, ◌<◌, ◌≤◌, [], All, length, IfSome};
ghost use Rattle.page_counter.specs.Seats.{AllJoined};

use super::meet;
use page_counter::example::count_off;
use page_counter::{CounterSeat, PageCounter};
use std::alloc::{AllocError as NoMemory, Global};
use std::sync::atomic::{AtomicU32, Ordering};
use std::test::Fail;
use std::thread;
use std::thread::Threads;

// A claimer, and what it noted of its claims.
#[derive(Drop)]
struct Player {
    seat: CounterSeat,
    noted: Vec<u64>,
}

fn players(
    alloc: Global,
    counter: &PageCounter,
    first: &mut CounterSeat,
    all: u32,
) -> Option<Vec<Player>>
    requires counter { first.old.counter ≡ counter.now }
    requires first { (first.old.view.number ≡ 0) × (first.old.view.made ≡ 1) }
    requires few { all ≤ 32 }
    ensures first { (first.new.counter ≡ first.old.counter) × (first.new.view.number ≡ 0)
        × (first.new.view.joined ≡ first.old.view.joined) }
    ensures made { IfSome result (λ v. first.new.view.made ≡ length v.items + 1) }
    ensures players { IfSome result (λ v. All (λ p. (p.seat.counter ≡ counter.now)
        × (p.seat.view.claims ≡ [])) v.items) }
{
    let mut players = Vec::new(alloc);
    for _i in 0..all {
        let noted = Vec::with_capacity(alloc, 64).ok()?;
        let seat = counter.split(first);
        players.push(Player { seat, noted }).ok()?;
    }
    Some(players)
}

// Claims as often as a seat may. What finds no memory is not noted.
fn claim_all(counter: &PageCounter, player: &mut Player)
    requires counter { player.old.seat.counter ≡ counter.now }
    requires none { player.old.seat.view.claims ≡ [] }
    ensures counter { player.new.seat.counter ≡ player.old.seat.counter }
{
    for _i in 0..64u32 {
        let claim = counter.claim(&mut player.seat);
        let _ = player.noted.push(claim);
    }
}

// What all players noted, one after another.
fn join_all(
    alloc: Global,
    counter: &PageCounter,
    first: &mut CounterSeat,
    mut players: Vec<Player>,
) -> Option<Vec<u64>>
    requires counter { first.old.counter ≡ counter.now }
    requires first { (first.old.view.number ≡ 0) × (first.old.view.joined ≡ []) }
    requires made { first.old.view.made ≡ length players.items + 1 }
    requires players { All (λ p. p.seat.counter ≡ counter.now) players.items }
    ensures counter { first.new.counter ≡ first.old.counter }
    ensures number { first.new.view.number ≡ 0 }
    ensures joined { IfSome result (λ _. AllJoined first.new.view) }
{
    let mut all = Vec::new(alloc);
    while let Some(player) = players.pop() {
        let Player { seat, noted } = player;
        counter.join(first, seat);
        all.extend_from_slice(noted.as_slice()).ok()?;
    }
    Some(all)
}

// The threads meet, and then claim 64 numbers each. All that were claimed, and what `close`
// answers.
fn crowd<R: Threads + Sync>(rt: &R, alloc: Global, all: u32) -> Option<(Vec<u64>, u64)>
    requires some { 0 < all }
    requires few { all ≤ 32 }
{
    let (counter, mut first) = PageCounter::make(alloc).ok()?;
    let mut players = players(alloc, &counter, &mut first, all)?;
    let (by, gate) = (&counter, AtomicU32::new(0));
    let late = AtomicU32::new(0);
    thread::for_each_mut(
        rt,
        &mut players,
        all as usize,
        &|_, player: &mut Player|
            requires { (player.old.seat.counter ≡ by.now) × (player.old.seat.view.claims ≡ []) }
            ensures { player.new.seat.counter ≡ player.old.seat.counter }
        {
            if !meet(&gate, all) {
                late.fetch_add(1, Ordering::SeqCst);
            }
            claim_all(by, player);
        },
    );
    let numbers = join_all(alloc, &counter, &mut first, players)?;
    let count = counter.close(first);
    if late.load(Ordering::SeqCst) == 0 {
        Some((numbers, count))
    } else {
        None
    }
}

// Claims of seat 0 and of another, in turn, and what `close` answers.
fn alone(alloc: Global) -> Option<([u64; 5], u64)> {
    let (counter, mut first) = PageCounter::make(alloc).ok()?;
    let one = counter.claim(&mut first);
    let mut second = counter.split(&mut first);
    let two = counter.claim(&mut second);
    let three = counter.claim(&mut second);
    let four = counter.claim(&mut first);
    counter.join(&mut first, second);
    let five = counter.claim(&mut first);
    Some(([one, two, three, four, five], counter.close(first)))
}

// Whether these are the numbers below the bound, each once.
fn are_each_once(numbers: &mut [u64], bound: u64) -> bool {
    numbers.sort_unstable();
    let mut all = numbers.len() as u64 == bound;
    for (place, number) in numbers.iter().enumerate() {
        all = all && *number == place as u64;
    }
    all
}

#[test]
fn claims_alone(rt: HostRuntime) -> Result<(), Fail> {
    assert_eq!(rt; alone(rt.alloc()), Some(([0, 1, 2, 3, 4], 5)));
    Ok(())
}

#[test]
fn claims_of_eight_threads(rt: HostRuntime) -> Result<(), Fail> {
    let (mut numbers, count) = crowd(&rt, rt.alloc(), 8).ok_or(
        "out of memory, or the threads did not meet",
    )?;
    assert_eq!(rt; (are_each_once(&mut numbers, 512), count), (true, 512));
    Ok(())
}

// Whether the numbers below the bound are claimed, each once.
fn counted<R: Threads + Sync>(
    rt: &R,
    alloc: Global,
    claimers: usize,
    bound: u64,
) -> Result<bool, NoMemory> {
    if claimers == 0 || claimers > 32 || bound > 63 {
        return Ok(false);
    }
    let mut numbers = count_off(rt, alloc, claimers, bound)?;
    Ok(are_each_once(&mut numbers, bound))
}

// How many claim at once, and the bound.
static CLAIMERS: [(usize, u64); 4] = [(1, 0), (1, 63), (8, 20), (32, 32)];

#[test]
fn counts_off(rt: HostRuntime) -> Result<(), Fail> {
    for (claimers, bound) in CLAIMERS.iter() {
        let counted = counted(&rt, rt.alloc(), *claimers, *bound)?;
        assert!(rt; counted, "{claimers} claimers below {bound}");
    }
    Ok(())
}
