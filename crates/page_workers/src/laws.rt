//! What is true of a worker from its seat to the end of a round.
ghost use Rattle.page_workers.specs.Laws.{DrawnMayLeave, SeatedMayDraw};

use outside::FontSource;

/// A worker that drew nothing yet may draw as soon as it was given a seat of the bench's cache, and
/// after a round its seat may be joined to seat 0.
pub fn rounds<F: FontSource>()
    ensures seated { SeatedMayDraw F.library }
    ensures drawn { DrawnMayLeave F.library F.faults F.loads }
{}
