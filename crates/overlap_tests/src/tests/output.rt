//! An output whose first write is held until loads began, which may wait for it.

ghost use Rattle.std.specs.Prelude.{◌≡◌};

use super::meeting::Meeting;
use outside::{Failed, Output};

/// Bytes that are written. The first write takes part in a meeting, where the output is to; a write
/// that waits in vain fails.
#[derive(Drop)]
pub struct HeldOutput {
    pub written: Vec<u8>,
    pub meeting: Meeting,
    pub meets: bool,
    pub faults: u64,
}

impl HeldOutput {
    /// What was written.
    pub fn bytes(&self) -> &[u8] {
        &self.written
    }

    // Begins a write, and says whether it may go on.
    fn goes_on(&self) -> bool {
        if !self.meets || !self.written.is_empty() {
            return true;
        }
        self.meeting.begin();
        self.meeting.wait()
    }

    // Takes bytes, and says whether it did.
    fn takes(&mut self, bytes: &[u8]) -> bool
        ensures { self.new.faults ≡ self.old.faults }
    {
        self.goes_on() && self.written.extend_from_slice(bytes).is_ok()
    }
}

impl Output for HeldOutput {
    ghost faults = { λ o. o.faults };

    fn write(&mut self, bytes: &[u8]) -> Result<usize, Failed> {
        if self.takes(bytes) {
            return Ok(bytes.len());
        }
        self.faults = self.faults.saturating_add(1);
        Err(Failed)
    }
}
