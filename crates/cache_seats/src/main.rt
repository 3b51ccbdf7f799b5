//! Measures how many look-ups a second the seats of one font cache make together, each in a thread
//! of its own, and beside it the same for one cache under std's `Mutex`. Every look-up asks for the
//! one font that is there.
//!
//! `cache_seats MILLISECONDS` prints a line for each number of seats and each amount of work
//! between two look-ups; `cache_seats ends` makes short runs, and prints that they ended.
#![tactic(auto)]

mod font;
mod looking;
mod mutex;
mod pace;
mod seats;

ghost use Rattle.std.specs.Prelude.{◌<◌, ◌≤◌};

use font::dot_key;
use mutex::rate_by_mutex;
use pace::steps_a_microsecond;
use seats::rate_by_turns;
use std::alloc::Global;
use std::env;
use std::io::{self, ErrorKind};
use std::sync::Wait;
use std::thread::Threads;
use std::time::{Clock, Duration};

const SEATS: [u32; 7] = [1, 2, 3, 4, 8, 16, 32];

// Hundredths of a microsecond.
const WORK: [u64; 4] = [0, 10, 35, 300];

// How many milliseconds a short run takes.
const SHORT: u64 = 2;

// How many look-ups a second n seats make together, by turns and under a mutex.
fn rates<R: Threads + Wait + Sync + Clock>(
    rt: &R,
    alloc: Global,
    all: u32,
    steps: u64,
    time: Duration,
) -> Option<(u64, u64)>
    requires { all ≤ 1000 }
{
    let key = dot_key(alloc).ok()?;
    let by_turns = rate_by_turns(rt, alloc, &key, all, steps, time)?;
    let by_mutex = rate_by_mutex(rt, alloc, &key, all, steps, time)?;
    Some((by_turns, by_mutex))
}

// A line for each number of seats.
fn measure_at<R: Threads + Wait + Sync + Clock + Print>(
    rt: &R,
    alloc: Global,
    steps: u64,
    time: Duration,
) -> io::Result<()> {
    for all in SEATS {
        let Some((turns, mutex)) = rates(rt, alloc, all, steps, time) else {
            return Err(io::Error::from(ErrorKind::OutOfMemory));
        };
        println!(rt; "{all} seats: {turns} look-ups a second; {mutex} under a Mutex")?;
    }
    Ok(())
}

fn measure<R: Threads + Wait + Sync + Clock + Print>(
    rt: &R,
    alloc: Global,
    time: Duration,
) -> io::Result<()> {
    let steps = steps_a_microsecond(rt)?;
    for work in WORK {
        let (whole, part) = (work / 100, work % 100);
        println!(rt; "{whole}.{part:02} microseconds of work between two look-ups")?;
        measure_at(rt, alloc, steps * work / 100, time)?;
    }
    Ok(())
}

fn short_runs<R: Threads + Wait + Sync + Clock + Print>(rt: &R, alloc: Global) -> io::Result<()> {
    for all in SEATS {
        match rates(rt, alloc, all, 0, Duration::from_millis(SHORT)) {
            Some(_) => println!(rt; "{all} seats: ends")?,
            None => println!(rt; "{all} seats: no rate")?,
        }
    }
    Ok(())
}

fn main(rt: HostRuntime) -> io::Result<()> {
    let mut words = env::args(&rt)?.skip(1);
    let Some(word) = words.next() else {
        return Err(io::Error::from(ErrorKind::InvalidInput));
    };
    if word.as_str() == "ends" {
        return short_runs(&rt, rt.alloc());
    }
    match word.parse::<u32>() {
        Ok(millis) => measure(&rt, rt.alloc(), Duration::from_millis(u64::from(millis))),
        Err(_) => Err(io::Error::from(ErrorKind::InvalidInput)),
    }
}
