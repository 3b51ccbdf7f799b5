//! The jobs of a run, over files.
ghost use Rattle.std.specs.Prelude.{◌≡◌, ◌<◌, [], ℕ, IfOk, length, slice_index_or};

use job_spool::{Job, Pair};
use real_streams::{FileInput, FileOutput};
use std::alloc::{AllocError as NoMemory, Global};
use std::rt::Files;

/// A job for each pair of names. No file is opened.
pub fn jobs_of<'a, R: Files>(
    rt: &'a R,
    alloc: Global,
    pairs: &'a [Pair],
) -> Result<Vec<Job<FileInput<'a, R>, FileOutput<'a, R>>>, NoMemory>
    ensures count { IfOk result (λ jobs. length jobs.items ≡ length pairs.now) }
    ensures empty { IfOk result (λ jobs. (k : ℕ) (d : _) → k < length pairs.now
        → (slice_index_or jobs.items k d).history.items ≡ []) }
{
    let mut jobs = Vec::new(alloc);
    for pair in pairs {
        let job = Job {
            input: FileInput::new(rt, &pair.source),
            out: FileOutput::new(rt, &pair.target),
            status: 0,
            history: Vec::new(alloc),
        };
        jobs.push(job)?;
    }
    Ok(jobs)
}
