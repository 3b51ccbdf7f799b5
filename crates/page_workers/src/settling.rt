//! Looks at a cache that are noted later than they were answered.
ghost use Rattle.std.specs.Prelude.{◌≡◌, ◌+◌, ◌<◌, ◌≤◌, [], All, Some, IsErrOf, IsOk, OnOk, length};
ghost use Rattle.std.specs.Arc.{arc_value};
ghost use Rattle.outside.specs.Counts.{HasCause};
ghost use Rattle.outside.specs.FontKeys.{IsFontKey};
ghost use Rattle.font_decode.specs.Desks.{TrailGrew};
ghost use Rattle.page_workers.specs.Rounds.{trail_of};
ghost use Rattle.page_workers.specs.Seats.{BenchFits, SeatFits, asked_at, asked_with, library_at, room_at, trail_at, units_at};

use crate::Bench;
use crate::worker::{Looked, Worker, answer};
use font_cache::CacheSeat;
use font_decode::{Decoded, DeskStop};
use outside::{FontKey, FontSource};
use std::alloc::Global;
use std::collections::VecDeque;
use std::sync::{Arc, Wait};

// Notes the look at the first of the keys, whose font is loaded where it is no hit, and those at
// the keys behind it as long as they are hits.
fn settle_some<R: Wait, F: FontSource>(
    rt: &R,
    alloc: Global,
    bench: &Bench,
    seat: &mut CacheSeat<Decoded>,
    source: &mut F,
    loads: &mut u64,
    keys: &mut VecDeque<Arc<FontKey>>,
) -> Result<(), DeskStop>
    requires fits { SeatFits (F.library source.old) bench.now seat.old }
    requires some_key { 1 ≤ length keys.old.items }
    requires keys { All (λ k. IsFontKey (arc_value k)) keys.old.items }
    requires room { 1 ≤ room_at loads.old (Some seat.old) }
    ensures part { seat.new.view.part ≡ seat.old.view.part }
    ensures fits { SeatFits (F.library source.new) bench.now seat.new }
    ensures keys { All (λ k. IsFontKey (arc_value k)) keys.new.items }
    ensures few { length keys.new.items ≤ length keys.old.items }
    ensures fewer { OnOk result (length keys.new.items < length keys.old.items) }
    ensures room { room_at loads.old (Some seat.old) ≤ room_at loads.new (Some seat.new) + 1 }
    ensures cause { HasCause (F.faults source.old) (F.faults source.new)
        (IsErrOf result DeskStop.SourceFault) }
    ensures asked { asked_with (Some seat.new) keys.new.items
        ≡ asked_with (Some seat.old) keys.old.items }
    ensures trail { TrailGrew (IsOk result) (asked_at (Some seat.old)) (asked_at (Some seat.new))
        (trail_at (F.loads source.old) loads.old (Some seat.old))
        (trail_at (F.loads source.new) loads.new (Some seat.new)) }
{
    let Some(first) = keys.front() else {
        unreachable!()
    };
    let look = bench.cache.look(rt, seat, first)?;
    let Some(key) = keys.pop_front() else {
        unreachable!()
    };
    let looked = Looked { key: &key, look };
    answer(rt, alloc, bench, seat, source, loads, looked)?;
    if keys.is_empty() {
        return Ok(());
    }
    bench.cache.note_hits(rt, seat, keys)?;
    Ok(())
}

// Notes the looks at the keys, one after another.
fn settle_all<R: Wait, F: FontSource>(
    rt: &R,
    alloc: Global,
    bench: &Bench,
    seat: &mut CacheSeat<Decoded>,
    source: &mut F,
    loads: &mut u64,
    keys: &mut VecDeque<Arc<FontKey>>,
) -> Result<(), DeskStop>
    requires fits { SeatFits (F.library source.old) bench.now seat.old }
    requires keys { All (λ k. IsFontKey (arc_value k)) keys.old.items }
    requires room { length keys.old.items ≤ room_at loads.old (Some seat.old) }
    ensures part { seat.new.view.part ≡ seat.old.view.part }
    ensures fits { SeatFits (F.library source.new) bench.now seat.new }
    ensures keys { All (λ k. IsFontKey (arc_value k)) keys.new.items }
    ensures none_left { OnOk result (keys.new.items ≡ []) }
    ensures room { room_at loads.old (Some seat.old)
        ≤ room_at loads.new (Some seat.new) + length keys.old.items }
    ensures room_left { room_at loads.old (Some seat.old) + length keys.new.items
        ≤ room_at loads.new (Some seat.new) + length keys.old.items + 1 }
    ensures cause { HasCause (F.faults source.old) (F.faults source.new)
        (IsErrOf result DeskStop.SourceFault) }
    ensures asked { asked_with (Some seat.new) keys.new.items
        ≡ asked_with (Some seat.old) keys.old.items }
    ensures trail { TrailGrew (IsOk result) (asked_at (Some seat.old)) (asked_at (Some seat.new))
        (trail_at (F.loads source.old) loads.old (Some seat.old))
        (trail_at (F.loads source.new) loads.new (Some seat.new)) }
{
    while !keys.is_empty() {
        settle_some(rt, alloc, bench, seat, source, loads, keys)?;
    }
    Ok(())
}

/// Notes looks of a worker at its cache, in order, whose answers it had already: each as any look,
/// so a font that left the cache is loaded again. Those that are left over were not noted. Each
/// takes the room of a look-up, and one that is refused leaves it with none of the others noted.
pub(crate) fn settle<R: Wait, F: FontSource>(
    rt: &R,
    alloc: Global,
    bench: &Bench,
    worker: &mut Worker<F>,
    keys: &mut VecDeque<Arc<FontKey>>,
) -> Result<(), DeskStop>
    requires fits { BenchFits (F.library worker.old.source) bench.now worker.old.seat }
    requires keys { All (λ k. IsFontKey (arc_value k)) keys.old.items }
    requires room { length keys.old.items ≤ room_at worker.old.loads worker.old.seat }
    ensures fits { BenchFits (F.library worker.new.source) bench.now worker.new.seat }
    ensures keys { All (λ k. IsFontKey (arc_value k)) keys.new.items }
    ensures none_left { OnOk result (keys.new.items ≡ []) }
    ensures same_library { library_at worker.new.seat ≡ library_at worker.old.seat }
    ensures same_units { units_at worker.new.seat ≡ units_at worker.old.seat }
    ensures room { room_at worker.old.loads worker.old.seat
        ≤ room_at worker.new.loads worker.new.seat + length keys.old.items }
    ensures room_left { room_at worker.old.loads worker.old.seat + length keys.new.items
        ≤ room_at worker.new.loads worker.new.seat + length keys.old.items + 1 }
    ensures cause { HasCause (F.faults worker.old.source) (F.faults worker.new.source)
        (IsErrOf result DeskStop.SourceFault) }
    ensures asked { asked_with worker.new.seat keys.new.items
        ≡ asked_with worker.old.seat keys.old.items }
    ensures trail { TrailGrew (IsOk result) (asked_at worker.old.seat) (asked_at worker.new.seat)
        (trail_of F.loads worker.old) (trail_of F.loads worker.new) }
{
    let Some(seat) = &mut worker.seat else {
        unreachable!()
    };
    settle_all(
        rt,
        alloc,
        bench,
        seat,
        &mut worker.source,
        &mut worker.loads,
        keys,
    )
}
