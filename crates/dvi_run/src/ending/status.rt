//! Exit statuses.
ghost use Rattle.std.specs.Prelude.{◌≡◌};
ghost use Rattle.dvi_run.specs.Endings.{value_of_ending, status_of, with_notes};

use super::Ending;
use vf_expand::PageFault;

impl Ending {
    /// The exit status, by whether the notes took the report.
    pub fn status(&self, taken: bool) -> u8
        ensures { result ≡ status_of (with_notes (value_of_ending self.now) taken) }
    {
        match self {
            Ending::Written => if taken { 0 } else { 8 },
            Ending::Usage => 1,
            Ending::Document(_) => 2,
            Ending::Page {
                fault: PageFault::Font(..),
                ..
            } => 4,
            Ending::Page { .. } => 3,
            Ending::Source(_) => 5,
            Ending::Input => 6,
            Ending::Output(_) => 7,
            Ending::Memory => 9,
        }
    }
}
