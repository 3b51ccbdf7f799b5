//! The runs of a raster, kept from the first pass for the second while they are few.

ghost use Rattle.std.specs.Prelude.{◌≡◌, ◌<◌, ◌∷◌, [], List, IfOk};
ghost use Rattle.pk_runs.specs.Numbers.{Item, Run};
ghost use Rattle.pk_packer.specs.Kept.{AreKept};
ghost use Rattle.pk_packer.specs.Written.{with_count};

use crate::counted::CountedRun;
use std::alloc::{AllocError as NoMemory, Global};

/// Runs in their order; `whole` as long as none was left out.
#[derive(Drop)]
pub struct Kept {
    pub runs: Vec<CountedRun>,
    pub whole: bool,
}

impl Kept {
    /// No runs, and room for some.
    pub fn new(alloc: Global, room: usize) -> Result<Kept, NoMemory>
        ensures { IfOk result (λ k. AreKept k []) }
    {
        Ok(Kept {
            runs: Vec::with_capacity(alloc, room)?,
            whole: true,
        })
    }

    /// Keeps a run, or leaves it out where there is no room.
    pub fn keep(&mut self, run: CountedRun)
        ensures { (items : List Item) → AreKept self.old items
            → AreKept self.new (Run run.len ∷ with_count run.count items) }
    {
        if self.runs.len() < self.runs.capacity() {
            self.runs.push_reserved(run);
        } else {
            self.whole = false;
        }
    }
}
