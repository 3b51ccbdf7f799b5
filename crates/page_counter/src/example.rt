//! A caller of the counter, as an example and for tests: claimers that count in threads of their
//! own.
ghost use Rattle.std.specs.Prelude.{◌≡◌, ◌+◌, ◌<◌, ◌≤◌, [], ◌∷◌, ◌++◌, All, length, filter, nat_lt, IfOk, OnOk};
ghost use Rattle.std.specs.Vec.{vec_capacity};
ghost use Rattle.page_counter.specs.Claimers.{CanNote, HasClaimed, IsReached};
ghost use Rattle.page_counter.specs.Numbers.{EachOnce};
ghost use Rattle.page_counter.specs.Views.{claims_of};

use crate::{CounterSeat, PageCounter};
use std::alloc::{AllocError as NoMemory, Global};
use std::thread;
use std::thread::Threads;

/// Who claims numbers until one is not below a bound, and notes those that are.
#[derive(Drop)]
pub struct Claimer {
    pub seat: Option<CounterSeat>,
    pub noted: Vec<u64>,
}

// Claims until a claim is not below the bound, which it answers, and notes those before.
fn note_below(
    counter: &PageCounter,
    seat: &mut CounterSeat,
    noted: &mut Vec<u64>,
    bound: u64,
) -> u64
    requires counter { seat.old.counter ≡ counter.now }
    requires few { bound < 64 }
    requires no_claims { seat.old.view.claims ≡ [] }
    requires none_noted { noted.old.items ≡ [] }
    requires room { bound ≤ vec_capacity noted.old }
    ensures counter { seat.new.counter ≡ seat.old.counter }
    ensures claims { seat.new.view.claims ≡ noted.new.items ++ result ∷ [] }
    ensures below { All (λ c. c < bound) noted.new.items }
    ensures reached { bound ≤ result }
{
    let mut claim = counter.claim(seat);
    while claim < bound {
        noted.push_reserved(claim);
        claim = counter.claim(seat);
    }
    claim
}

// The same by a claimer.
fn claim_below(counter: &PageCounter, claimer: &mut Claimer, bound: u64)
    requires few { bound < 64 }
    requires ready { CanNote counter.now bound claimer.old }
    ensures { HasClaimed counter.now bound claimer.new }
{
    let Some(seat) = &mut claimer.seat else {
        unreachable!()
    };
    let _last = note_below(counter, seat, &mut claimer.noted, bound);
}

// Claimers that have claimed nothing, each with room to note all numbers below the bound.
fn seat_all(
    alloc: Global,
    counter: &PageCounter,
    first: &mut CounterSeat,
    count: usize,
    bound: u64,
) -> Result<Vec<Claimer>, NoMemory>
    requires counter { first.old.counter ≡ counter.now }
    requires first { (first.old.view.number ≡ 0) × (first.old.view.made ≡ 1) }
    requires few { count ≤ 32 }
    ensures counter { first.new.counter ≡ first.old.counter }
    ensures same { (first.new.view.number ≡ 0) × (first.new.view.claims ≡ first.old.view.claims)
        × (first.new.view.joined ≡ first.old.view.joined) }
    ensures made { OnOk result (first.new.view.made ≡ count + 1) }
    ensures claimers { IfOk result (λ v. (length v.items ≡ count)
        × All (λ w. CanNote counter.now bound w) v.items) }
{
    let mut claimers = Vec::new(alloc);
    for _i in 0..count {
        let noted = Vec::with_capacity(alloc, bound as usize)?;
        let seat = Some(counter.split(first));
        claimers.push(Claimer { seat, noted })?;
    }
    Ok(claimers)
}

// Takes all seats in, and answers what was noted.
fn join_all(
    alloc: Global,
    counter: &PageCounter,
    first: &mut CounterSeat,
    mut claimers: Vec<Claimer>,
    bound: u64,
) -> Result<Vec<u64>, NoMemory>
    requires counter { first.old.counter ≡ counter.now }
    requires first { (first.old.view.number ≡ 0) × (first.old.view.joined ≡ []) }
    requires claimers { All (λ w. HasClaimed counter.now bound w) claimers.items }
    ensures counter { first.new.counter ≡ first.old.counter }
    ensures same { (first.new.view.number ≡ 0) × (first.new.view.claims ≡ first.old.view.claims)
        × (first.new.view.made ≡ first.old.view.made) }
    ensures joined { OnOk result (length first.new.view.joined ≡ length claimers.items) }
    ensures noted { IfOk result (λ all. all.items
        ≡ filter (λ c. nat_lt c bound) (claims_of first.new.view.joined)) }
    ensures reached { OnOk result (0 < length first.new.view.joined
        → IsReached bound (claims_of first.new.view.joined)) }
{
    let mut all = Vec::new(alloc);
    while let Some(claimer) = claimers.pop() {
        let Claimer { seat, noted } = claimer;
        let Some(seat) = seat else { unreachable!() };
        counter.join(first, seat);
        all.extend_from_slice(noted.as_slice())?;
    }
    Ok(all)
}

/// The numbers below the bound, each once, as the claimers claimed them, each in a thread of its
/// own where one can be made. `Err` means out of memory.
pub fn count_off<R: Threads + Sync>(
    rt: &R,
    alloc: Global,
    claimers: usize,
    bound: u64,
) -> Result<Vec<u64>, NoMemory>
    requires some { 0 < claimers }
    requires few { claimers ≤ 32 }
    requires below { bound < 64 }
    ensures each { IfOk result (λ all. EachOnce bound all.items) }
{
    let (counter, mut first) = PageCounter::make(alloc)?;
    let mut all = seat_all(alloc, &counter, &mut first, claimers, bound)?;
    let by = &counter;
    thread::for_each_mut(
        rt,
        &mut all,
        claimers,
        &|_, claimer: &mut Claimer|
            requires { (bound < 64) × CanNote by.now bound claimer.old }
            ensures { HasClaimed by.entry.now bound claimer.new }
        { claim_below(by, claimer, bound) },
    );
    let numbers = join_all(alloc, &counter, &mut first, all, bound)?;
    let _count = counter.close(first);
    Ok(numbers)
}
