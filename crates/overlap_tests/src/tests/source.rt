//! A source whose loads are held until others began.
ghost use Rattle.std.specs.Prelude.{◌<◌, ◌^◌};

use super::meeting::Meeting;
use outside::{FileName, FontSource, Library, LoadStop};
use std::sync::Arc;

/// Which loads, by the names of files, are held until two of those awaited began; whether the first
/// write is one of those held and awaited; and whether chance decides what the cache is asked.
#[derive(Clone, Copy)]
pub struct Plan {
    pub held: &'static [&'static [u8]],
    pub awaited: &'static [&'static [u8]],
    pub output_meets: bool,
    pub by_chance: bool,
}

/// A source of a library's files that goes by a plan. A load that is held in vain fails.
#[derive(Drop)]
pub struct Held {
    pub library: Arc<Library>,
    pub meeting: Meeting,
    pub plan: Plan,
    pub loads: u64,
    pub faults: u64,
    pub ghost loads_fit: { loads < 2 ^ 64 },
}

fn is_among(name: &FileName, names: &[&[u8]]) -> bool {
    for other in names {
        if name.bytes() == *other {
            return true;
        }
    }
    false
}

impl Held {
    // Notes a load where it is awaited, and says whether it may go on, after it was held.
    fn goes_on(&self, name: &FileName) -> bool {
        if is_among(name, self.plan.awaited) {
            self.meeting.begin();
        }
        !is_among(name, self.plan.held) || self.meeting.wait()
    }
}

impl FontSource for Held {
    ghost faults = { λ h. h.faults };

    ghost loads = { λ h. h.loads };

    ghost loads_fit = { λ h. h.loads_fit };

    fn load(&mut self, name: &FileName) -> Result<Option<Vec<u8>>, LoadStop> {
        self.loads = self.loads.saturating_add(1);
        if !self.goes_on(name) {
            self.faults = self.faults.saturating_add(1);
            return Err(LoadStop::Failed);
        }
        Ok(self.library.copy_of(name)?)
    }
}
