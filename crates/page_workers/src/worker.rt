//! A worker, and how it is asked for a font.
ghost use Rattle.std.specs.Prelude.{◌≡◌, ◌+◌, ◌^◌, ◌≤◌, [], ◌∷◌, Some, None, IfOk, IfSome, IsErrOf, IsOk, OnErr, OnOk};
ghost use Rattle.std.specs.Arc.{arc_value};
ghost use Rattle.outside.specs.Counts.{HasCause};
ghost use Rattle.outside.specs.FontKeys.{IsFontKey};
ghost use Rattle.cache_core.specs.Histories.{left_by, open_claim};
ghost use Rattle.cache_core.specs.States.{answered};
ghost use Rattle.pixel_round.specs.Preamble.{AreUnits};
ghost use Rattle.turn_lock.specs.Seats.{SeatView};
ghost use Rattle.turn_lock.specs.declared.view.Stage.TheVariants.{Idle};
ghost use Rattle.font_cache.specs.Turns.{HitStands};
ghost use Rattle.font_decode.specs.Decoding.{IsFontOf};
ghost use Rattle.font_decode.specs.Desks.{GrewBy, GrewByAtMost, TrailGrew};
ghost use Rattle.font_decode.specs.Loads.{MAX_LOADS};
ghost use Rattle.page_workers.specs.SparePages.{HasNoSparePages};
ghost use Rattle.page_workers.specs.Seats.{LookedUp, SeatFits, asked_at, own_calls, room_at, trail_at};

use crate::Bench;
use crate::counting::load_counted;
use crate::keeping::keep;
use crate::rings::Outlet;
use cache_core::Look;
use font_cache::CacheSeat;
use font_decode::{Decoded, Desk, DeskStop};
use outside::{FontKey, FontSource};
use page_counter::CounterSeat;
use page_draw::{Drawn, PageStop};
use raster_page::Page;
use std::alloc::Global;
use std::sync::{Arc, Wait};

/// What came of a page: its number, counted from 0, and its bitmap and what it lacks, or why there
/// is none.
#[derive(Drop)]
pub struct PageResult {
    pub page: usize,
    pub outcome: Result<Drawn, PageStop>,
}

/// Who draws pages, by a source of font files of its own and a seat at the shared cache of fonts.
#[derive(Drop)]
pub struct Worker<F: FontSource> {
    pub source: F,
    /// Its seat, while a run lasts.
    pub seat: Option<CacheSeat<Decoded>>,
    /// The results of the pages of this round, in the order in which it drew them, until the caller
    /// takes them out.
    pub results: Vec<PageResult>,
    /// How many loads the worker asked of its source.
    pub loads: u64,
    /// The pages that the worker drew, counted from 0, in the order in which it drew them.
    pub pages: Vec<usize>,
    /// Its seat at the counter of a round, while it draws the round's pages.
    pub counter: Option<CounterSeat>,
    /// Pages that were written, on whose memory it draws again.
    pub spare_pages: Vec<Page>,
    /// Its ends of the rings of a round, while it hands the round's pages on.
    pub outlet: Option<Outlet>,
    /// Whether no thread began to draw in an earlier round, as where none can be made. Rounds are
    /// then handed on by the caller's thread alone.
    pub no_threads: bool,
}

impl<F: FontSource> Worker<F> {
    /// A worker without seats, results and pages, also spare ones, and with no loads. It takes no
    /// memory.
    pub fn new(alloc: Global, source: F) -> Worker<F>
        ensures source { result.source ≡ source }
        ensures seat { result.seat ≡ None }
        ensures results { result.results.items ≡ [] }
        ensures loads { result.loads ≡ 0 }
        ensures pages { result.pages.items ≡ [] }
        ensures counter { result.counter ≡ None }
        ensures spare_pages { HasNoSparePages result }
    {
        Worker {
            source,
            seat: None,
            results: Vec::new(alloc),
            loads: 0,
            pages: Vec::new(alloc),
            counter: None,
            spare_pages: Vec::new(alloc),
            outlet: None,
            no_threads: false,
        }
    }
}

impl<F: FontSource> Desk for Worker<F> {
    ghost use Rattle.page_workers.specs.Seats.{BenchFits, library_at, units_at, asked_at, trail_at, room_at, units_known, asked_known, seat_shares};

    type Shared = Bench;

    ghost library = { λ w. library_at w.seat };

    ghost units = { λ w. units_at w.seat };

    ghost fits = { λ w bench. BenchFits (F.library w.source) bench w.seat };

    ghost faults = { λ w. F.faults w.source };

    ghost asked = { λ w. asked_at w.seat };

    ghost trail = { λ w. trail_at (F.loads w.source) w.loads w.seat };

    ghost room = { λ w. room_at w.loads w.seat };

    ghost known = { λ w some. units_known w.seat some };

    ghost asks = { λ w some. asked_known (F.loads w.source) w.loads w.seat some };

    ghost shares = { λ w. seat_shares (F.loads w.source) w.loads w.seat };

    fn font<R: Wait>(
        &mut self,
        rt: &R,
        alloc: Global,
        shared: &Bench,
        key: &Arc<FontKey>,
    ) -> Result<Arc<Decoded>, DeskStop> {
        let Some(seat) = &mut self.seat else {
            unreachable!()
        };
        ask(
            rt,
            alloc,
            shared,
            seat,
            &mut self.source,
            &mut self.loads,
            key,
        )
    }
}

/// A key that a seat looked up, and what its cache answered.
pub(crate) struct Looked<'a> {
    pub key: &'a Arc<FontKey>,
    pub look: Look<Decoded>,
}

// The font of a key, from the cache or from its files.
fn ask<R: Wait, F: FontSource>(
    rt: &R,
    alloc: Global,
    bench: &Bench,
    seat: &mut CacheSeat<Decoded>,
    source: &mut F,
    loads: &mut u64,
    key: &Arc<FontKey>,
) -> Result<Arc<Decoded>, DeskStop>
    requires fits { SeatFits (F.library source.old) bench.now seat.old }
    requires room { 1 ≤ room_at loads.old (Some seat.old) }
    requires key { IsFontKey (arc_value key.now) }
    ensures found { IfOk result (λ font. IsFontOf seat.old.view.part.library
        (Some seat.old.view.part.units) (arc_value key.now) (arc_value font)) }
    ensures part { seat.new.view.part ≡ seat.old.view.part }
    ensures fits { SeatFits (F.library source.new) bench.now seat.new }
    ensures room { room_at loads.old (Some seat.old) ≤ room_at loads.new (Some seat.new) + 1 }
    ensures cause { HasCause (F.faults source.old) (F.faults source.new)
        (IsErrOf result DeskStop.SourceFault) }
    ensures asked { OnOk result (GrewBy (asked_at (Some seat.old)) (asked_at (Some seat.new))
        (arc_value key.now ∷ [])) }
    ensures refused { OnErr result (GrewByAtMost (asked_at (Some seat.old))
        (asked_at (Some seat.new)) (arc_value key.now)) }
    ensures trail { TrailGrew (IsOk result) (asked_at (Some seat.old)) (asked_at (Some seat.new))
        (trail_at (F.loads source.old) loads.old (Some seat.old))
        (trail_at (F.loads source.new) loads.new (Some seat.new)) }
{
    let look = bench.cache.look(rt, seat, key)?;
    let looked = Looked { key, look };
    answer(rt, alloc, bench, seat, source, loads, looked)
}

/// The font of a key that was looked up. A seat that claimed the key fills it, or releases it where
/// the load was refused; one that found it busy loads the font for itself alone. The clauses on the
/// keys asked and on the trail say what the look and this made of the seat together, from what it
/// was before the look. It takes two turns at most, and one where there is a font.
pub(crate) fn answer<R: Wait, F: FontSource>(
    rt: &R,
    alloc: Global,
    bench: &Bench,
    seat: &mut CacheSeat<Decoded>,
    source: &mut F,
    loads: &mut u64,
    looked: Looked,
) -> Result<Arc<Decoded>, DeskStop>
    requires lock { seat.old.lock ≡ bench.now.cache }
    requires idle { seat.old.view.stage ≡ Idle }
    requires claim { open_claim (own_calls seat.old)
        ≡ left_by (arc_value looked.key.now) (answered looked.look) }
    requires units { bench.now.units ≡ seat.old.view.part.units }
    requires sound { AreUnits bench.now.units }
    requires knows_library { IfSome seat.old.view.part.library (λ l.
        F.library source.old ≡ Some l) }
    requires turns { seat.old.view.drawn + 2 ≤ 2 ^ 48 }
    requires loads { loads.old + MAX_LOADS ≤ 2 ^ 62 }
    requires key { IsFontKey (arc_value looked.key.now) }
    requires stands { HitStands (λ font k part. IsFontOf part.library (Some part.units) k font)
        looked.look (arc_value looked.key.now) seat.old.view.part }
    ensures found { IfOk result (λ font. IsFontOf seat.old.view.part.library
        (Some seat.old.view.part.units) (arc_value looked.entry.key.now) (arc_value font)) }
    ensures part { seat.new.view.part ≡ seat.old.view.part }
    ensures fits { SeatFits (F.library source.new) bench.now seat.new }
    ensures turns { seat.new.view.drawn ≤ seat.old.view.drawn + 2 }
    ensures turns_with_font { OnOk result (seat.new.view.drawn ≤ seat.old.view.drawn + 1) }
    ensures loads { loads.new ≤ loads.old + MAX_LOADS }
    ensures cause { HasCause (F.faults source.old) (F.faults source.new)
        (IsErrOf result DeskStop.SourceFault) }
    ensures asked { (before : SeatView)
        → LookedUp (arc_value looked.entry.key.now) (answered looked.entry.look) before seat.old
        → GrewBy (asked_at (Some before)) (asked_at (Some seat.new))
        (arc_value looked.entry.key.now ∷ []) }
    ensures trail { (before : SeatView)
        → LookedUp (arc_value looked.entry.key.now) (answered looked.entry.look) before seat.old
        → TrailGrew (IsOk result) (asked_at (Some before)) (asked_at (Some seat.new))
        (trail_at (F.loads source.old) loads.old (Some before))
        (trail_at (F.loads source.new) loads.new (Some seat.new)) }
{
    let Looked { key, look } = looked;
    match look {
        Look::Hit(font) => Ok(font),
        Look::Busy => load_counted(alloc, source, loads, key, &bench.units),
        Look::Claimed => match load_counted(alloc, source, loads, key, &bench.units) {
            Ok(font) => keep(rt, &bench.cache, seat, key, font),
            Err(stop) => {
                bench.cache.release(rt, seat, key);
                Err(stop)
            }
        },
    }
}
