//! The font files of a case.
ghost use Rattle.std.specs.Prelude.{◌<◌, ◌^◌};

use outside::{FileName, FontSource, Library, LoadStop};
use std::alloc::Global;

/// Which loads of a source fail, and which find no memory, counted from 1. A load that is in both
/// lists fails.
#[derive(Drop)]
pub struct Failures {
    pub failed: Vec<u64>,
    pub starved: Vec<u64>,
    /// How the names of files begin that can't be loaded, or nothing.
    pub front: Vec<u8>,
}

/// Files of which some loads fail.
#[derive(Drop)]
pub struct Fonts<'a> {
    library: &'a Library,
    fails: &'a [u64],
    starves: &'a [u64],
    front: &'a [u8],
    /// How many loads were asked for.
    pub loads: u64,
    faults: u64,
    ghost loads_fit: { loads < 2 ^ 64 },
}

impl Failures {
    /// No load fails.
    pub fn none(alloc: Global) -> Failures {
        Failures {
            failed: Vec::new(alloc),
            starved: Vec::new(alloc),
            front: Vec::new(alloc),
        }
    }
}

impl<'a> Fonts<'a> {
    /// No load yet.
    pub fn new(library: &'a Library, failures: &'a Failures) -> Fonts<'a> {
        Fonts {
            library,
            fails: &failures.failed,
            starves: &failures.starved,
            front: &failures.front,
            loads: 0,
            faults: 0,
        }
    }

    // Whether this load, of this file, fails.
    fn is_failing(&self, name: &[u8]) -> bool {
        self.fails.contains(&self.loads) || (!self.front.is_empty() && name.starts_with(self.front))
    }
}

impl<'a> FontSource for Fonts<'a> {
    ghost faults = { λ s. s.faults };

    ghost loads = { λ s. s.loads };

    ghost loads_fit = { λ s. s.loads_fit };

    fn load(&mut self, name: &FileName) -> Result<Option<Vec<u8>>, LoadStop> {
        self.loads = self.loads.saturating_add(1);
        if self.is_failing(name.bytes()) {
            self.faults = self.faults.saturating_add(1);
            return Err(LoadStop::Failed);
        }
        if self.starves.contains(&self.loads) {
            return Err(LoadStop::NoMemory);
        }
        Ok(self.library.copy_of(name)?)
    }
}
