//! A caller of the lock, as an example and for tests: seats that note in a diary that they were
//! there.
ghost use Rattle.std.specs.Prelude.{◌≡◌, ◌+◌, ◌*◌, ◌^◌, ◌<◌, ◌≤◌, [], ◌∷◌, ◌++◌, length, IfOk, OnOk, OnErr};
ghost use mathlib.Core.List.{IsPrefix};
ghost use Rattle.cache_core.specs.Histories.{own};
ghost use Rattle.turn_lock.specs.declared.view.Stage.TheVariants.{Idle};
ghost use Rattle.turn_lock.specs.Histories.{AllMade};
ghost use Rattle.turn_lock.specs.Diaries.{call_by, calls_by, EndsWith};

use crate::{Seat, TurnLock};
use cache_core::Told;
use std::alloc::{AllocError as NoMemory, Global};
use std::sync::Wait;

/// A list of the seats that were there, in order. Each is seen as a call of that seat.
#[derive(Drop)]
pub struct Diary {
    pub seats: Vec<u32>,
    pub turns: u64,
}

impl Told for Diary {
    ghost history = { λ d. calls_by d.seats.items };

    ghost turns = { λ d. d.turns };

    ghost stands = { λ d part. Unit {0} };
}

impl Diary {
    /// A diary in which nobody was there.
    pub fn new(alloc: Global) -> Diary
        ensures nobody { result.seats.items ≡ [] }
        ensures no_turn { result.turns ≡ 0 }
    {
        Diary {
            seats: Vec::new(alloc),
            turns: 0,
        }
    }

    /// One turn, which is noted unless memory runs out.
    pub fn note(&mut self, seat: u32) -> Result<(), NoMemory>
        requires few { self.old.turns < 2 ^ 62 }
        ensures turn { self.new.turns ≡ self.old.turns + 1 }
        ensures noted { OnOk result (calls_by self.new.seats.items
            ≡ calls_by self.old.seats.items ++ call_by seat ∷ []) }
        ensures same { OnErr result (self.new.seats.items ≡ self.old.seats.items) }
    {
        self.turns += 1;
        self.seats.push(seat)?;
        Ok(())
    }
}

/// One turn of a seat. The history that the seat has then seen begins with what it had seen. Where
/// the seat was noted it ends with this call, and the seat's own calls grew by just this one; else
/// they are as before.
pub fn turn<R: Wait>(rt: &R, lock: &TurnLock<Diary>, seat: &mut Seat<Diary>) -> Result<(), NoMemory>
    requires lock { seat.old.lock ≡ lock.now }
    requires idle { seat.old.view.stage ≡ Idle }
    requires room { seat.old.view.drawn < 2 ^ 48 }
    ensures lock { seat.new.lock ≡ seat.old.lock }
    ensures idle { seat.new.view.stage ≡ Idle }
    ensures number { seat.new.view.number ≡ seat.old.view.number }
    ensures drawn { seat.new.view.drawn ≡ seat.old.view.drawn + 1 }
    ensures joined { (seat.new.view.made ≡ seat.old.view.made)
        × (seat.new.view.joined ≡ seat.old.view.joined) }
    ensures begins { IsPrefix seat.old.view.seen seat.new.view.seen }
    ensures last { OnOk result (EndsWith (call_by seat.old.view.number) seat.new.view.seen) }
    ensures noted { OnOk result (own seat.old.view.number seat.new.view.seen
        ≡ own seat.old.view.number seat.old.view.seen ++ call_by seat.old.view.number ∷ []) }
    ensures same { OnErr result (own seat.old.view.number seat.new.view.seen
        ≡ own seat.old.view.number seat.old.view.seen) }
{
    let mut diary = lock.take(rt, seat);
    let noted = diary.note(seat.number());
    lock.give(seat, diary);
    noted
}

// Takes the second of two seats in, and closes the lock.
fn finish(lock: TurnLock<Diary>, mut first: Seat<Diary>, second: Seat<Diary>) -> Diary
    requires lock { (first.lock ≡ lock) × (second.lock ≡ lock) }
    requires first { (first.view.number ≡ 0) × (first.view.stage ≡ Idle) }
    requires second { (second.view.number ≡ 1) × (second.view.stage ≡ Idle) }
    requires only { (first.view.made ≡ 2) × (first.view.joined ≡ []) }
    ensures begins { IsPrefix first.view.seen (calls_by result.seats.items) }
    ensures of_first { own 0 (calls_by result.seats.items) ≡ own 0 first.view.seen }
    ensures of_second { own 1 (calls_by result.seats.items) ≡ own 1 second.view.seen }
    ensures of_no_other { AllMade 2 (calls_by result.seats.items) }
{
    lock.join(&mut first, second);
    lock.close(first)
}

/// Seat 0 takes a turn, and then a second seat that was split from it. The diary has these two
/// calls, in that order.
pub fn two_turns<R: Wait>(rt: &R, alloc: Global) -> Result<Diary, NoMemory>
    ensures { IfOk result (λ d. calls_by d.seats.items ≡ calls_by (0 ∷ 1 ∷ [])) }
{
    let Ok((lock, mut first)) = TurnLock::make(alloc, Diary::new(alloc)) else {
        return Err(NoMemory);
    };
    turn(rt, &lock, &mut first)?;
    let mut second = lock.split(&mut first);
    turn(rt, &lock, &mut second)?;
    Ok(finish(lock, first, second))
}
