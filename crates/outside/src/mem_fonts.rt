//! Font sources in memory: one of which chosen calls fail, and one that never fails.
ghost use Rattle.std.specs.Prelude.{◌≡◌, ◌<◌, ◌^◌, ◌↔◌, [], Some, Contains, IfOk, IsErrOf};
ghost use Rattle.std.specs.Option.{option_map};
ghost use Rattle.outside.specs.Counts.{HasCause, next_count};
ghost use Rattle.outside.specs.Library.{AskedFor, IsFileOf};

use crate::asked_names::AskedNames;
use crate::memory::is_listed;
use crate::{FileName, FontSource, Library, LoadStop};
use std::sync::Arc;

/// A library of which the loads with the listed numbers fail, or find no memory.
#[derive(Drop)]
pub struct MemFonts {
    library: Arc<Library>,
    fails: Vec<u64>,
    starves: Vec<u64>,
    loads: u64,
    faults: u64,
    asked: AskedNames,
    ghost loads_fit: { loads < 2 ^ 64 },
}

impl MemFonts {
    /// The loads that `fails` names, from 1, fail.
    pub fn new(library: Arc<Library>, fails: Vec<u64>) -> MemFonts
        ensures library { result.library.value ≡ library.value }
        ensures fails { result.fails.items ≡ fails.items }
        ensures starves { result.starves.items ≡ [] }
        ensures unused { (result.loads ≡ 0) × (result.faults ≡ 0) × (result.asked ≡ Some []) }
    {
        let starves = Vec::new(library.alloc());
        MemFonts::starving(library, fails, starves)
    }

    /// The loads that `fails` names, from 1, fail. Those that `starves` names and `fails` doesn't
    /// find no memory, which is no fault.
    pub fn starving(library: Arc<Library>, fails: Vec<u64>, starves: Vec<u64>) -> MemFonts
        ensures library { result.library.value ≡ library.value }
        ensures fails { result.fails.items ≡ fails.items }
        ensures starves { result.starves.items ≡ starves.items }
        ensures unused { (result.loads ≡ 0) × (result.faults ≡ 0) × (result.asked ≡ Some []) }
    {
        let asked = AskedNames::new(library.alloc());
        MemFonts {
            library,
            fails,
            starves,
            loads: 0,
            faults: 0,
            asked,
        }
    }

    /// The names that were asked for, in order, unless memory ran out for one.
    pub fn asked(&self) -> Option<&[FileName]>
        ensures { option_map (λ names. names.now) result ≡ self.now.asked }
    {
        self.asked.names()
    }
}

impl FontSource for MemFonts {
    ghost library = { λ m. Some m.library.value };

    ghost faults = { λ m. m.faults };

    ghost loads = { λ m. m.loads };

    ghost asked = { λ m. m.asked };

    ghost loads_fit = { λ m. m.loads_fit };

    fn load(&mut self, name: &FileName) -> Result<Option<Vec<u8>>, LoadStop>
        ensures file { IfOk result (λ found. IsFileOf (Some self.old.library.value) name.now
            (option_map (λ bytes. bytes.items) found)) }
        ensures same_library { Some self.new.library.value ≡ Some self.old.library.value }
        ensures cause { HasCause self.old.faults self.new.faults (IsErrOf result LoadStop.Failed) }
        ensures counted { self.new.loads ≡ next_count self.old.loads }
        ensures asked { AskedFor self.old.asked self.new.asked name.now result }

        // The loads are counted from 1, and exactly those that are listed fail.
        ensures listed { (result ≡ Err LoadStop.Failed)
            ↔ Contains self.old.fails.items self.new.loads }
        ensures faulty { result ≡ Err LoadStop.Failed
            → self.new.faults ≡ next_count self.old.faults }
        ensures good { ¬ (result ≡ Err LoadStop.Failed) → self.new.faults ≡ self.old.faults }

        // A load that is listed as starved and not as failing finds no memory.
        ensures starved { Contains self.old.starves.items self.new.loads
            → ¬ Contains self.old.fails.items self.new.loads
            → result ≡ Err LoadStop.NoMemory }
        ensures keeps { (self.new.fails ≡ self.old.fails) × (self.new.starves ≡ self.old.starves) }
    {
        self.loads = self.loads.saturating_add(1);
        let kept = self.asked.add(name);
        if is_listed(&self.fails, self.loads) {
            self.faults = self.faults.saturating_add(1);
            return Err(LoadStop::Failed);
        }
        kept?;
        if is_listed(&self.starves, self.loads) {
            return Err(LoadStop::NoMemory);
        }
        Ok(self.library.copy_of(name)?)
    }
}

/// A library of which no load fails unless memory runs out.
#[derive(Drop)]
pub struct SureFonts {
    library: Arc<Library>,
    loads: u64,
    asked: AskedNames,
    ghost loads_fit: { loads < 2 ^ 64 },
}

impl SureFonts {
    /// A source of the library's files.
    pub fn new(library: Arc<Library>) -> SureFonts
        ensures library { result.library.value ≡ library.value }
        ensures unused { (result.loads ≡ 0) × (result.asked ≡ Some []) }
    {
        let asked = AskedNames::new(library.alloc());
        SureFonts {
            library,
            loads: 0,
            asked,
        }
    }
}

impl FontSource for SureFonts {
    ghost library = { λ s. Some s.library.value };

    ghost faults = { λ _. 0 };

    ghost loads = { λ s. s.loads };

    ghost asked = { λ s. s.asked };

    ghost loads_fit = { λ s. s.loads_fit };

    fn load(&mut self, name: &FileName) -> Result<Option<Vec<u8>>, LoadStop>
        ensures file { IfOk result (λ found. IsFileOf (Some self.old.library.value) name.now
            (option_map (λ bytes. bytes.items) found)) }
        ensures same_library { Some self.new.library.value ≡ Some self.old.library.value }
        ensures cause { HasCause 0 0 (IsErrOf result LoadStop.Failed) }
        ensures counted { self.new.loads ≡ next_count self.old.loads }
        ensures asked { AskedFor self.old.asked self.new.asked name.now result }

        ensures never_fails { ¬ (result ≡ Err LoadStop.Failed) }
    {
        self.loads = self.loads.saturating_add(1);
        self.asked.add(name)?;
        Ok(self.library.copy_of(name)?)
    }
}
