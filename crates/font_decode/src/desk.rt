//! Where a page asks for its fonts.
ghost use Rattle.std.specs.Prelude.{◌≡◌, ◌+◌, ◌≤◌, ◌∷◌, [], ℕ, List, Option, None, Some, IfOk, IfSome, IsErrOf, IsOk, IsSome, OnErr, OnOk};
ghost use Rattle.std.specs.Arc.{arc_value};
ghost use Rattle.outside.specs.Counts.{HasCause};
ghost use Rattle.outside.specs.Library as library;
ghost use Rattle.outside.specs.declared.keys.FontKey.{FontKey};
ghost use Rattle.pixel_round.specs.declared.units.Units.{Units};
ghost use Rattle.outside.specs.FontKeys.{IsFontKey};
ghost use Rattle.font_decode.specs.Decoding.{IsFontOf};
ghost use Rattle.font_decode.specs.Desks.{GrewBy, GrewByAtMost, Trail, TrailGrew};

use crate::Decoded;
use outside::{FontKey, LoadStop};
use std::alloc::{AllocError, AllocFailed, Global};
use std::sync::{Arc, Wait};

/// Why a desk has no answer.
#[derive(Clone, Copy, Debug, PartialEq, Eq)]
pub enum DeskStop {
    /// The source of the font files failed.
    SourceFault,
    /// Out of memory.
    NoMemory,
}

impl From<AllocError> for DeskStop {
    ghost use Rattle.std.specs.Prelude.{◌≡◌};
    ghost use Rattle.font_decode.specs.declared.desk.DeskStop.TheVariants.{NoMemory};

    ghost from_gives = { λ _ stop. stop ≡ NoMemory };

    fn from(_: AllocError) -> DeskStop {
        DeskStop::NoMemory
    }
}

impl<T: Drop> From<AllocFailed<T>> for DeskStop {
    ghost use Rattle.std.specs.Prelude.{◌≡◌};
    ghost use Rattle.font_decode.specs.declared.desk.DeskStop.TheVariants.{NoMemory};

    ghost from_gives = { λ _ stop. stop ≡ NoMemory };

    fn from(_: AllocFailed<T>) -> DeskStop {
        DeskStop::NoMemory
    }
}

impl From<LoadStop> for DeskStop {
    ghost use Rattle.std.specs.Prelude.{◌≡◌};
    ghost use Rattle.font_decode.specs.Stops.{stop_of_load};

    ghost from_gives = { λ load stop. stop ≡ stop_of_load load };

    fn from(load: LoadStop) -> DeskStop {
        match load {
            LoadStop::Failed => DeskStop::SourceFault,
            LoadStop::NoMemory => DeskStop::NoMemory,
        }
    }
}

/// Where a page asks for its fonts.
pub trait Desk: Drop {
    /// What all desks of one run share.
    type Shared;

    /// All the font files, where they are known. No call changes them.
    ghost library: { Self → Option library.FileTable } = { λ _. None };

    /// The units of the document, where they are known. No call changes them.
    ghost units: { Self → Option Units } = { λ _. None };

    /// Whether a shared value is this desk's.
    ghost fits: { Self → Self.Shared → Type 0 };

    /// How often the source of its font files failed.
    ghost faults: { Self → ℕ };

    /// The keys asked, in order, where they are known.
    ghost asked: { Self → Option (List FontKey) } = { λ _. None };

    /// The desk's seat at a cache, the calls of that seat, and the loads of its source, where they
    /// are known.
    ghost trail: { Self → Option Trail } = { λ _. None };

    /// How many more fonts may be asked for.
    ghost room: { Self → ℕ };

    /// The font of a key, or what is wrong with it.
    fn font<R: Wait>(
        &mut self,
        rt: &R,
        alloc: Global,
        shared: &Self::Shared,
        key: &Arc<FontKey>,
    ) -> Result<Arc<Decoded>, DeskStop>
        requires fits { fits self.old shared.now }
        requires room { 1 ≤ room self.old }
        requires key { IsFontKey (arc_value key.now) }

        // Where the library is known: the answer is the key's font there.
        ensures found { IfOk result (λ font.
            IsFontOf (library self.old) (units self.old) (arc_value key.now) (arc_value font)) }

        // Whatever the desk.
        ensures same_library { library self.new ≡ library self.old }
        ensures same_units { units self.new ≡ units self.old }
        ensures still_fits { fits self.new shared.now }
        ensures room { room self.old ≤ room self.new + 1 }
        ensures cause { HasCause (faults self.old) (faults self.new)
            (IsErrOf result DeskStop.SourceFault) }
        ensures asked { OnOk result (GrewBy (asked self.old) (asked self.new)
            (arc_value key.now ∷ [])) }
        ensures refused { OnErr result (GrewByAtMost (asked self.old) (asked self.new)
            (arc_value key.now)) }
        ensures trail { TrailGrew (IsOk result) (asked self.old) (asked self.new) (trail self.old)
            (trail self.new) };

    /// The units are known wherever the library is.
    ghost known: { (d : Self) → IsSome (library d) → IsSome (units d) };

    /// The keys asked are known wherever the trail is.
    ghost asks: { (d : Self) → IsSome (trail d) → IsSome (asked d) };

    /// The library and the units that the seat's cache knows are those of the desk.
    ghost shares: { (d : Self) → IfSome (trail d) (λ t.
        (t.part.library ≡ library d) × (Some t.part.units ≡ units d)) };
}
