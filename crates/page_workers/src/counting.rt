//! Fonts that are loaded for a worker, and the loads that are counted for it.
ghost use Rattle.std.specs.Prelude.{◌≡◌, ◌+◌, ◌<◌, ◌≤◌, ◌^◌, ℕ, Some, length, IfOk, IfSome, IsErrOf, OnOk};
ghost use Rattle.std.specs.Arc.{arc_value};
ghost use Rattle.outside.specs.Counts.{HasCause};
ghost use Rattle.outside.specs.FontKeys.{IsFontKey};
ghost use Rattle.pixel_round.specs.Preamble.{AreUnits};
ghost use Rattle.font_decode.specs.Decoding.{IsFontOf};
ghost use Rattle.font_decode.specs.Desks.{Loaded};
ghost use Rattle.font_decode.specs.Files.{looked_for};
ghost use Rattle.font_decode.specs.Loads.{RoseBy, RoseUpTo, MAX_LOADS};
ghost use Rattle.page_workers.specs.Counts.{CountedLoads};

use font_decode::{Decoded, DeskStop, load};
use outside::{FileName, FontKey, FontSource, LoadStop};
use pixel_round::Units;
use std::alloc::Global;
use std::marker::{Brand, PhantomData};
use std::sync::Arc;

/// Which source a counting source was lent, by the name of its reference, and how many loads had
/// been asked of it by then. A proof picks both.
pub trait Loan {
    ghost reference: { ℕ };

    ghost begun: { ℕ };
}

impl Loan for Brand {
    ghost reference = { 0 };

    ghost begun = { 0 };
}

// A source that passes each load on to the one that it was lent, and counts the loads from 0. Its
// type keeps that the loads of that source rose by as much, or stand still at 2^64 - 1.
#[derive(Drop)]
struct Counting<'a, F: FontSource, K: Loan> {
    source: &'a mut F,
    loads: u64,
    of: PhantomData<K>,
    ghost loads_fit: { loads < 2 ^ 64 },
    ghost same: { source.ghost_name ≡ K.reference },
    ghost counted: { CountedLoads K.begun loads (F.loads source.now) },
}

impl<F: FontSource, K: Loan> FontSource for Counting<'_, F, K> {
    ghost library = { λ c. F.library c.source.now };

    ghost faults = { λ c. F.faults c.source.now };

    ghost loads = { λ c. c.loads };

    ghost asked = { λ c. F.asked c.source.now };

    ghost loads_fit = { λ c. c.loads_fit };

    fn load(&mut self, name: &FileName) -> Result<Option<Vec<u8>>, LoadStop> {
        let found = self.source.load(name);
        self.loads = self.loads.saturating_add(1);
        found
    }
}

// A font, or why it was not loaded, and how many loads were asked for it.
#[derive(Drop)]
struct CountedLoad {
    font: Result<Arc<Decoded>, DeskStop>,
    loads: u64,
}

// Loads a font from a source that was lent, and gives the source back.
fn load_lent<'a, K: Loan, F: FontSource>(
    source: &'a mut F,
    alloc: Global,
    key: &Arc<FontKey>,
    units: &Units,
    loaded: &mut CountedLoad,
) -> &'a mut F
    requires reference { source.ghost_name ≡ K.reference }
    requires begun { F.loads source.old ≡ K.begun }
    requires units { AreUnits units.now }
    requires key { IsFontKey (arc_value key.now) }
    ensures back { result.ghost_name ≡ source.entry.ghost_name }
    ensures found { IfOk loaded.new.font (λ font.
        IsFontOf (F.library source.old) (Some units.now) (arc_value key.now) (arc_value font)) }
    ensures library { F.library result.now ≡ F.library source.old }
    ensures cause { HasCause (F.faults source.old) (F.faults result.now)
        (IsErrOf loaded.new.font DeskStop.SourceFault) }
    ensures few { loaded.new.loads ≤ MAX_LOADS }
    ensures files { OnOk loaded.new.font (IfSome (F.library source.old) (λ l.
        RoseBy (length (looked_for l units.now (arc_value key.now))) 0 loaded.new.loads)) }
    ensures no_more { IfSome (F.library source.old) (λ l.
        RoseUpTo (length (looked_for l units.now (arc_value key.now))) 0 loaded.new.loads) }
    ensures counted { CountedLoads (F.loads source.old) loaded.new.loads (F.loads result.now) }
{
    let mut counting = Counting::<F, K> {
        source,
        loads: 0,
        of: PhantomData,
    };
    let font = load(alloc, &mut counting, key, units);
    let Counting {
        source,
        loads,
        of: _,
    } = counting;
    *loaded = CountedLoad { font, loads };
    source
}

/// Loads and decodes the font of a key, and adds the loads that it asked for, at most eight, to the
/// count: where the library is known, one for each file that is looked for. A fault of the font is
/// an answer. `SourceFault` comes only where the source's count of faults rose, `NoMemory` where
/// memory ran out.
pub fn load_counted<F: FontSource>(
    alloc: Global,
    source: &mut F,
    loads: &mut u64,
    key: &Arc<FontKey>,
    units: &Units,
) -> Result<Arc<Decoded>, DeskStop>
    requires units { AreUnits units.now }
    requires key { IsFontKey (arc_value key.now) }
    requires room { loads.old + 8 ≤ 2 ^ 62 }
    ensures found { IfOk result (λ font.
        IsFontOf (F.library source.old) (Some units.now) (arc_value key.now) (arc_value font)) }
    ensures library { F.library source.new ≡ F.library source.old }
    ensures cause { HasCause (F.faults source.old) (F.faults source.new)
        (IsErrOf result DeskStop.SourceFault) }
    ensures loaded { Loaded MAX_LOADS (F.loads source.old) (F.loads source.new) loads.old
        loads.new }
    ensures few { loads.new ≤ loads.old + MAX_LOADS }
    ensures files { OnOk result (IfSome (F.library source.old) (λ l.
        RoseBy (length (looked_for l units.now (arc_value key.now))) loads.old loads.new)) }
    ensures no_more { IfSome (F.library source.old) (λ l.
        RoseUpTo (length (looked_for l units.now (arc_value key.now))) loads.old loads.new) }
{
    let mut loaded = CountedLoad {
        font: Err(DeskStop::NoMemory),
        loads: 0,
    };
    load_lent::<Brand, F>(source, alloc, key, units, &mut loaded);
    *loads += loaded.loads;
    loaded.font
}
