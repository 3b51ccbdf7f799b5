//! In how many threads a round is drawn, and which rounds in the caller's thread alone.
ghost use Rattle.std.specs.Prelude.{◌+◌, ◌≤◌};
ghost use Rattle.page_index.specs.Document.{pages_begun};

use crate::claiming::Round;
use crate::job::Job;
use crate::round::MAX_WORKERS;
use crate::worker::Worker;
use outside::FontSource;
use std::thread;
use std::thread::Threads;

// How many workers each have a thread, however few processors there are.
const FEW_WORKERS: usize = 8;

// How many dots all pages of a round have, and how many bytes of commands each of them, that one
// thread draws sooner than others are started.
const FEW_DOTS: u64 = 1 << 20;

const FEW_BYTES: usize = 128;

// The opcodes of FntNum0 and of Fnt4, between which are those of all commands that select a font.
const FIRST_FONT: u8 = 171;

const LAST_FONT: u8 = 238;

/// In how many threads n workers draw a round: in one for each or, where they are more than eight,
/// in one for each processor and fewer than two. More would only take turns, and draw on more
/// memory.
pub(crate) fn drawing_threads<R: Threads>(rt: &R, workers: usize) -> usize
    ensures { 1 ≤ result }
{
    if workers <= FEW_WORKERS {
        return MAX_WORKERS;
    }
    match thread::available_parallelism(rt) {
        // As many workers to a thread as leave no processor without one.
        Ok(processors) => workers.div_ceil((workers / processors.get()).max(1)).max(1),
        Err(_) => MAX_WORKERS,
    }
}

// Whether a page has few commands, and none that selects a font, as far as its bytes alone tell: so
// it loads none.
fn is_short(bytes: &[u8]) -> bool {
    bytes.len() <= FEW_BYTES
        && !bytes
            .iter()
            .any(|byte| (FIRST_FONT..=LAST_FONT).contains(byte))
}

// How many dots all pages of a round have.
fn dots(job: &Job, count: usize) -> u64 {
    u64::from(job.sheet.width)
        .saturating_mul(u64::from(job.sheet.height))
        .saturating_mul(count as u64)
}

// Whether the pages of a round are small and load no font.
fn are_small(job: &Job, round: &Round) -> bool
    requires { round.now.pages.first + round.now.pages.count
        ≤ pages_begun job.now.index.now.reading }
{
    if dots(job, round.pages.count) > FEW_DOTS {
        return false;
    }
    let first = round.pages.first;
    for i in first..first + round.pages.count {
        if !is_short(job.index.page(i).bytes) {
            return false;
        }
    }
    true
}

/// Whether a round is drawn in the caller's thread alone: where there is one worker, where no
/// thread could be made before, and where the pages are small and load no font.
pub(crate) fn drawn_alone<F: FontSource>(workers: &[Worker<F>], job: &Job, round: &Round) -> bool
    requires { round.now.pages.first + round.now.pages.count
        ≤ pages_begun job.now.index.now.reading }
{
    workers.len() == 1 || workers.iter().any(|worker| worker.no_threads) || are_small(job, round)
}
