//! A desk without a cache.
ghost use Rattle.std.specs.Prelude.{◌≡◌, ◌^◌, Some, refl};
ghost use Rattle.pixel_round.specs.Preamble.{AreUnits};

use font_decode::{Decoded, Desk, DeskStop, load};
use outside::{FontKey, FontSource};
use pixel_round::Units;
use std::alloc::Global;
use std::marker::Model;
use std::sync::{Arc, Wait};

/// A desk that loads and decodes a font each time it is asked for one. Its units are known, and its
/// library where that of its source is; which keys were asked for is not.
#[derive(Drop)]
pub struct PlainDesk<F: FontSource> {
    source: F,
    units: Units,
}

impl<F: FontSource> Model for PlainDesk<F> {
    ghost use Rattle.pixel_round.specs.Preamble.{AreUnits};
    ghost use Rattle.page_draw.specs.PlainDesks.{PlainView};

    ghost Value = { PlainView F };

    ghost view = { λ d. record { source = d.source; units = d.units } };

    ghost invariant = { λ d. AreUnits d.units };
}

impl<F: FontSource> PlainDesk<F> {
    /// A desk over a source, for the units of a document.
    pub fn new(source: F, units: Units) -> PlainDesk<F>
        requires { AreUnits units }
        ensures { result ≡ record { source = source; units = units } }
    {
        PlainDesk { source, units }
    }

    /// Gives the source back.
    pub fn finish(self) -> F
        ensures { result ≡ self.source }
    {
        self.source
    }
}

impl<F: FontSource> Desk for PlainDesk<F> {
    type Shared = ();

    ghost library = { λ d. F.library d.source };

    ghost units = { λ d. Some d.units };

    ghost fits = { λ d shared. Unit {0} };

    ghost faults = { λ d. F.faults d.source };

    ghost room = { λ d. 2 ^ 48 };

    ghost known = { λ d some. refl };

    ghost asks = { λ d some. some };

    ghost shares = { λ d. tt };

    fn font<R: Wait>(
        &mut self,
        _rt: &R,
        alloc: Global,
        _shared: &(),
        key: &Arc<FontKey>,
    ) -> Result<Arc<Decoded>, DeskStop> {
        load(alloc, &mut self.source, key, &self.units)
    }
}
