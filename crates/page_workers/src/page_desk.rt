//! The desk of one page: a worker that answers look-ups of fonts that it already holds by itself,
//! and notes these looks at the cache together.
ghost use Rattle.std.specs.Prelude.{◌≡◌, ◌+◌, ◌≤◌, [], ◌∷◌, ℕ, List, Option, None, IfOk, IsErrOf, OnErr, OnOk};
ghost use Rattle.std.specs.Arc.{arc_value};
ghost use Rattle.outside.specs.Counts.{HasCause};
ghost use Rattle.outside.specs.FontKeys.{IsFontKey};
ghost use Rattle.outside.specs.declared.keys.FontKey.{FontKey};
ghost use Rattle.font_decode.specs.Decoding.{IsFontOf};
ghost use Rattle.font_decode.specs.Desks.{GrewBy, GrewByAtMost, Trail};
ghost use Rattle.page_workers.specs.PageDesks.{DrawsPage};
ghost use Rattle.page_workers.specs.Seats.{asked_with, library_at, room_with, units_at};

use crate::Bench;
use crate::held_fonts::HeldFonts;
use crate::settling::settle;
use crate::worker::Worker;
use font_decode::{Decoded, Desk, DeskStop};
use outside::{FontKey, FontSource};
use std::alloc::Global;
use std::collections::VecDeque;
use std::marker::{Brand, PhantomData};
use std::sync::{Arc, Wait};

// How many looks are noted later at most.
const MOST_PENDING: usize = 1024;

/// What a worker was when it began a page: the name of the reference by which it was lent, the keys
/// that it had asked, its seat's trail, and how often its source had failed. A proof picks them.
pub trait PageStart {
    ghost reference: { ℕ };

    ghost asked: { Option (List FontKey) };

    ghost trail: { Option Trail };

    ghost faults: { ℕ };
}

impl PageStart for Brand {
    ghost reference = { 0 };

    ghost asked = { None };

    ghost trail = { None };

    ghost faults = { 0 };
}

/// A worker while it draws one page.
#[derive(Drop)]
pub(crate) struct PageDesk<'a, F: FontSource, K: PageStart> {
    pub worker: &'a mut Worker<F>,
    /// The fonts that the page was given.
    pub held: HeldFonts,
    /// The keys that were answered with a font that was held, and whose looks aren't noted yet, in
    /// order.
    pub pending: VecDeque<Arc<FontKey>>,
    /// Why a look-up was refused. Then nothing more is looked up or noted.
    pub stop: Option<DeskStop>,
    pub of: PhantomData<K>,
    pub ghost same: { worker.ghost_name ≡ K.reference },
}

impl<F: FontSource, K: PageStart> PageDesk<'_, F, K> {
    // Notes the looks that are pending.
    fn settle<R: Wait>(&mut self, rt: &R, alloc: Global, bench: &Bench) -> Result<(), DeskStop>
        requires draws { DrawsPage F.library F.faults F.loads K.asked K.trail K.faults bench.now
            self.old.worker.now self.old.pending.items self.old.stop }
        requires going { self.old.stop ≡ None }
        requires room { 1 ≤ room_with self.old.worker.now.loads self.old.worker.now.seat
            self.old.pending.items }
        ensures draws { DrawsPage F.library F.faults F.loads K.asked K.trail K.faults bench.now
            self.new.worker.now self.new.pending.items self.new.stop }
        ensures held { self.new.held ≡ self.old.held }
        ensures same_library { library_at self.new.worker.now.seat
            ≡ library_at self.old.worker.now.seat }
        ensures same_units { units_at self.new.worker.now.seat
            ≡ units_at self.old.worker.now.seat }
        ensures room { room_with self.old.worker.now.loads self.old.worker.now.seat
            self.old.pending.items
            ≤ room_with self.new.worker.now.loads self.new.worker.now.seat
            self.new.pending.items + 1 }
        ensures cause { HasCause (F.faults self.old.worker.now.source)
            (F.faults self.new.worker.now.source) (IsErrOf result DeskStop.SourceFault) }
        ensures none_left { OnOk result (self.new.pending.items ≡ []) }
        ensures goes_on { OnOk result (self.new.stop ≡ None) }
        ensures same_room { OnOk result (
            room_with self.old.worker.now.loads self.old.worker.now.seat self.old.pending.items
            ≤ room_with self.new.worker.now.loads self.new.worker.now.seat
            self.new.pending.items) }
        ensures asked { asked_with self.new.worker.now.seat self.new.pending.items
            ≡ asked_with self.old.worker.now.seat self.old.pending.items }
    {
        let settled = settle(rt, alloc, bench, self.worker, &mut self.pending);
        if let Err(stop) = settled {
            self.stop = Some(stop);
        }
        settled
    }

    // Has a look noted later, of a key whose font is held.
    fn note_later<R: Wait>(
        &mut self,
        rt: &R,
        alloc: Global,
        bench: &Bench,
        key: &Arc<FontKey>,
    ) -> Result<(), DeskStop>
        requires draws { DrawsPage F.library F.faults F.loads K.asked K.trail K.faults bench.now
            self.old.worker.now self.old.pending.items self.old.stop }
        requires going { self.old.stop ≡ None }
        requires room { 1 ≤ room_with self.old.worker.now.loads self.old.worker.now.seat
            self.old.pending.items }
        requires key { IsFontKey (arc_value key.now) }
        ensures draws { DrawsPage F.library F.faults F.loads K.asked K.trail K.faults bench.now
            self.new.worker.now self.new.pending.items self.new.stop }
        ensures held { self.new.held ≡ self.old.held }
        ensures same_library { library_at self.new.worker.now.seat
            ≡ library_at self.old.worker.now.seat }
        ensures same_units { units_at self.new.worker.now.seat
            ≡ units_at self.old.worker.now.seat }
        ensures room { room_with self.old.worker.now.loads self.old.worker.now.seat
            self.old.pending.items
            ≤ room_with self.new.worker.now.loads self.new.worker.now.seat
            self.new.pending.items + 1 }
        ensures cause { HasCause (F.faults self.old.worker.now.source)
            (F.faults self.new.worker.now.source) (IsErrOf result DeskStop.SourceFault) }
        ensures asked { OnOk result (GrewBy
            (asked_with self.old.worker.now.seat self.old.pending.items)
            (asked_with self.new.worker.now.seat self.new.pending.items) (arc_value key.now ∷ [])) }
        ensures refused { OnErr result (GrewByAtMost
            (asked_with self.old.worker.now.seat self.old.pending.items)
            (asked_with self.new.worker.now.seat self.new.pending.items) (arc_value key.now)) }
    {
        if self.pending.len() >= MOST_PENDING {
            self.settle(rt, alloc, bench)?;
        }
        self.pending.push_back(Arc::try_clone(key)?)?;
        Ok(())
    }

    // Asks the worker for a font, after the looks before it were noted.
    fn ask<R: Wait>(
        &mut self,
        rt: &R,
        alloc: Global,
        bench: &Bench,
        key: &Arc<FontKey>,
    ) -> Result<Arc<Decoded>, DeskStop>
        requires draws { DrawsPage F.library F.faults F.loads K.asked K.trail K.faults bench.now
            self.old.worker.now self.old.pending.items self.old.stop }
        requires going { self.old.stop ≡ None }
        requires room { 1 ≤ room_with self.old.worker.now.loads self.old.worker.now.seat
            self.old.pending.items }
        requires key { IsFontKey (arc_value key.now) }
        ensures found { IfOk result (λ font. IsFontOf (library_at self.old.worker.now.seat)
            (units_at self.old.worker.now.seat) (arc_value key.now) (arc_value font)) }
        ensures draws { DrawsPage F.library F.faults F.loads K.asked K.trail K.faults bench.now
            self.new.worker.now self.new.pending.items self.new.stop }
        ensures held { self.new.held ≡ self.old.held }
        ensures same_library { library_at self.new.worker.now.seat
            ≡ library_at self.old.worker.now.seat }
        ensures same_units { units_at self.new.worker.now.seat
            ≡ units_at self.old.worker.now.seat }
        ensures room { room_with self.old.worker.now.loads self.old.worker.now.seat
            self.old.pending.items
            ≤ room_with self.new.worker.now.loads self.new.worker.now.seat
            self.new.pending.items + 1 }
        ensures cause { HasCause (F.faults self.old.worker.now.source)
            (F.faults self.new.worker.now.source) (IsErrOf result DeskStop.SourceFault) }
        ensures asked { OnOk result (GrewBy
            (asked_with self.old.worker.now.seat self.old.pending.items)
            (asked_with self.new.worker.now.seat self.new.pending.items) (arc_value key.now ∷ [])) }
        ensures refused { OnErr result (GrewByAtMost
            (asked_with self.old.worker.now.seat self.old.pending.items)
            (asked_with self.new.worker.now.seat self.new.pending.items) (arc_value key.now)) }
    {
        self.settle(rt, alloc, bench)?;
        let answer = self.worker.font(rt, alloc, bench, key);
        if let Err(stop) = &answer {
            self.stop = Some(*stop);
        }
        answer
    }
}

impl<F: FontSource, K: PageStart> Desk for PageDesk<'_, F, K> {
    ghost use Rattle.page_workers.specs.HeldFonts.{AreTheirKeys};
    ghost use Rattle.page_workers.specs.PageDesks.{DrawsPage, known_of_none};
    ghost use Rattle.page_workers.specs.Seats.{asked_with, library_at, room_with, units_at, units_known};

    type Shared = Bench;

    ghost library = { λ d. library_at d.worker.now.seat };

    ghost units = { λ d. units_at d.worker.now.seat };

    ghost fits = { λ d bench. DrawsPage F.library F.faults F.loads K.asked K.trail K.faults bench
        d.worker.now d.pending.items d.stop
        × AreTheirKeys (library_at d.worker.now.seat) (units_at d.worker.now.seat)
        d.held.fonts.items };

    ghost faults = { λ d. F.faults d.worker.now.source };

    ghost asked = { λ d. asked_with d.worker.now.seat d.pending.items };

    ghost room = { λ d. room_with d.worker.now.loads d.worker.now.seat d.pending.items };

    ghost known = { λ d some. units_known d.worker.now.seat some };

    ghost asks = { λ d none. known_of_none (asked_with d.worker.now.seat d.pending.items) none };

    ghost shares = { λ d. tt };

    fn font<R: Wait>(
        &mut self,
        rt: &R,
        alloc: Global,
        shared: &Bench,
        key: &Arc<FontKey>,
    ) -> Result<Arc<Decoded>, DeskStop> {
        if self.stop.is_some() {
            return Err(DeskStop::NoMemory);
        }
        if let Some(font) = self.held.get(key)? {
            self.note_later(rt, alloc, shared, key)?;
            return Ok(font);
        }
        let loads = self.worker.loads;
        let font = self.ask(rt, alloc, shared, key)?;
        // A font that came in may have driven others out of the cache.
        if self.worker.loads != loads {
            self.held.clear();
        }
        Ok(self.held.add(alloc, key, &font)?)
    }
}
