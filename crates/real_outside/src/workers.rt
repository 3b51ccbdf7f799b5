//! The workers of a run, over font files that are opened by their names.
ghost use Rattle.std.specs.Prelude.{◌≡◌, ◌<◌, ℕ, IfOk, length, slice_index_or};
ghost use Rattle.page_workers.specs.Seating.{IsUnused};
ghost use Rattle.real_outside.specs.Workers.{AreNewWorkers};

use page_workers::Worker;
use real_streams::{FolderFonts, FolderOpener, OpenedFonts, Opener};
use std::alloc::{AllocError as NoMemory, Global};
use std::path::PathBuf;
use std::rt::Files;

// How many workers a run may use.
const WORKERS: usize = 32;

/// Workers over what this opener opens, 32 of them.
pub fn workers_by<O: Opener + Copy>(
    alloc: Global,
    opener: O,
) -> Result<Vec<Worker<OpenedFonts<O>>>, NoMemory>
    ensures { IfOk result (λ workers. AreNewWorkers opener workers.items) }
{
    let mut workers = Vec::new(alloc);
    for _k in 0..WORKERS {
        let worker = Worker::new(alloc, OpenedFonts::over(alloc, opener));
        workers.push(worker)?;
    }
    Ok(workers)
}

/// Workers over a folder of font files, 32 of them.
pub fn workers_over<'a, R: Files>(
    rt: &'a R,
    alloc: Global,
    folder: &'a PathBuf,
) -> Result<Vec<Worker<FolderFonts<'a, R>>>, NoMemory>
    ensures count { IfOk result (λ workers. length workers.items ≡ 32) }
    ensures unused { IfOk result (λ workers. (k : ℕ) (d : _) → k < 32
        → IsUnused (slice_index_or workers.items k d)) }
{
    workers_by(alloc, FolderOpener::new(rt, alloc, folder))
}
