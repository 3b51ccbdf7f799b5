//! Seats that no other thread comes between.
ghost use Rattle.std.specs.Prelude.{◌≡◌, ◌+◌, ◌^◌, ◌≤◌};
ghost use Rattle.turn_lock.specs.declared.view.Stage.TheVariants.{Idle};

use std::alloc::Global;
use std::sync::Wait;
use std::test::Fail;
use turn_lock::example::{Diary, turn};
use turn_lock::{Seat, TurnLock};

// n turns. Says whether each found the lock idle, and left it so.
fn turns_alone<R: Wait>(rt: &R, lock: &TurnLock<Diary>, seat: &mut Seat<Diary>, count: u64) -> bool
    requires lock { seat.old.lock ≡ lock.now }
    requires idle { seat.old.view.stage ≡ Idle }
    requires room { seat.old.view.drawn + count ≤ 2 ^ 48 }
{
    let mut idle = lock.is_idle();
    for _i in 0..count {
        idle = turn(rt, lock, seat).is_ok() && lock.is_idle() && idle;
    }
    idle
}

fn alone<R: Wait>(rt: &R, alloc: Global) -> Option<bool> {
    let Ok((lock, mut first)) = TurnLock::make(alloc, Diary::new(alloc)) else {
        return None;
    };
    Some(turns_alone(rt, &lock, &mut first, 10_000))
}

// The numbers of two seats, and how many turns the first drew.
fn counts<R: Wait>(rt: &R, alloc: Global) -> Option<(u32, u32, u64)> {
    let Ok((lock, mut first)) = TurnLock::make(alloc, Diary::new(alloc)) else {
        return None;
    };
    let second = lock.split(&mut first);
    let noted = turn(rt, &lock, &mut first).is_ok() && turn(rt, &lock, &mut first).is_ok();
    if noted {
        Some((first.number(), second.number(), first.drawn()))
    } else {
        None
    }
}

#[test]
fn numbers_and_turns_of_seats(rt: HostRuntime) -> Result<(), Fail> {
    assert_eq!(rt; counts(&rt, rt.alloc()), Some((0, 1, 2)));
    Ok(())
}

// If each turn slept, these would take minutes.
#[test]
fn a_seat_alone_never_sleeps(rt: HostRuntime) -> Result<(), Fail> {
    assert_eq!(rt; alone(&rt, rt.alloc()), Some(true));
    Ok(())
}
