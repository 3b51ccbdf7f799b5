//! A turn that is given late, when all others who want one sleep.
ghost use Rattle.std.specs.Prelude.{◌≡◌, ◌<◌, ◌≤◌};
ghost use Rattle.turn_lock.specs.declared.view.Stage.TheVariants.{Idle};

use super::super::meet;
use super::{had_all, some_seats};
use std::alloc::Global;
use std::sync::Wait;
use std::sync::atomic::{AtomicU32, Ordering};
use std::thread;
use std::thread::Threads;
use turn_lock::example::{Diary, turn};
use turn_lock::{Seat, TurnLock};

// Waits until so many seats sleep. False where they don't in a very long time.
fn all_sleep(lock: &TurnLock<Diary>, seats: u64) -> bool {
    for _ in 0..100_000_000u32 {
        if lock.sleeping() == seats {
            return true;
        }
        thread::yield_now();
    }
    false
}

// Has the turn when the others ask for theirs, and gives when all of them sleep.
fn give_late<R: Wait>(
    rt: &R,
    lock: &TurnLock<Diary>,
    seat: &mut Seat<Diary>,
    met: &AtomicU32,
    all: u32,
) -> bool
    requires { (seat.old.lock ≡ lock.now) × (seat.old.view.stage ≡ Idle)
        × (seat.old.view.drawn ≡ 0) }
{
    let mut diary = lock.take(rt, seat);
    let asked = meet(met, all);
    let slept = all_sleep(lock, u64::from(all).saturating_sub(1));
    let noted = diary.note(seat.number());
    lock.give(seat, diary);
    asked && slept && noted.is_ok()
}

// The first thread has the turn when the others ask, who sleep until it gives late; then each takes
// one turn.
fn late<R: Threads + Wait + Sync>(rt: &R, alloc: Global, all: u32) -> Option<Diary>
    requires some { 0 < all }
    requires few { all ≤ 1000 }
{
    let Ok((lock, mut first)) = TurnLock::make(alloc, Diary::new(alloc)) else {
        return None;
    };
    let mut seats = some_seats(alloc, &lock, &mut first, all)?;
    let (by, gate, good) = (&lock, AtomicU32::new(0), AtomicU32::new(0));
    thread::for_each_mut(
        rt,
        &mut seats,
        all as usize,
        &|i, seat: &mut Seat<Diary>|
            requires { (seat.old.lock ≡ by.now) × (seat.old.view.stage ≡ Idle)
                × (seat.old.view.drawn ≡ 0) }
        {
            let ends = if i == 0 {
                give_late(rt, by, seat, &gate, all)
            } else {
                meet(&gate, all) && turn(rt, by, seat).is_ok()
            };
            if ends {
                good.fetch_add(1, Ordering::SeqCst);
            }
        },
    );
    let diary = lock.take(rt, &mut first);
    if good.load(Ordering::SeqCst) == all {
        Some(diary)
    } else {
        None
    }
}

// How often a turn is given late. A wake that was lost would cost 50 milliseconds each time, and
// all of them more than a test may take.
const GIVEN_LATE: u32 = 2000;

// Whether the first of four threads had the turn first while the others slept, and each had one.
fn was_given_late<R: Threads + Wait + Sync>(rt: &R, alloc: Global) -> bool {
    match late(rt, alloc, 4) {
        Some(diary) => diary.seats.first() == Some(&1) && had_all(&diary, 4, 1),
        None => false,
    }
}

#[test]
fn a_turn_given_late(rt: HostRuntime) {
    for time in 0..GIVEN_LATE {
        assert!(rt; was_given_late(&rt, rt.alloc()), "at {time}");
    }
}
