//! Runs over several documents, and what is told of them.
ghost use Rattle.std.specs.Prelude.{◌≡◌, ◌<◌, ◌≤◌, [], ℕ, IsTrue, length, map, slice_index_or, string_bytes};
ghost use Rattle.job_spool.specs.Promises.{ForNumbers};
ghost use Rattle.job_spool.specs.Words.{pairs_of_words, spool_numbers as numbers_of_words};

use crate::case::Case;
use crate::outcome::some_workers;
use crate::show::{add_notes, add_pages};
use job_spool::{Job, spool_numbers, spool_pairs, spool_run};
use outside::{Library, MemInput, MemOutput};
use std::alloc::{AllocError as NoMemory, Global};
use std::io::{self, ErrorKind};
use std::sync::Wait;
use std::thread::Threads;

/// A job of the table.
pub type TableJob = Job<MemInput, MemOutput>;

/// A job with the document and the streams of a case.
pub fn job_of(alloc: Global, case: &mut Case) -> Result<TableJob, NoMemory> {
    let streams = case.streams(alloc)?;
    Ok(Job {
        input: streams.input,
        out: streams.output,
        status: 0,
        history: Vec::new(alloc),
    })
}

// Adds the names of the files of so many jobs to the arguments.
fn name_files(alloc: Global, words: &mut Vec<String>, jobs: usize) -> Result<(), NoMemory> {
    for _ in 0..jobs {
        words.push(String::from_str(alloc, "in")?)?;
        words.push(String::from_str(alloc, "out")?)?;
    }
    Ok(())
}

// Whether there are as many jobs and workers as the arguments ask for, where they are a line.
fn is_fit(alloc: Global, words: &[String], jobs: usize, workers: usize) -> bool
    ensures { IsTrue result → ForNumbers (numbers_of_words (map string_bytes words.now)) (λ numbers.
        (numbers.workers ≤ workers)
        × (jobs ≡ length (pairs_of_words (map string_bytes words.now)))) }
{
    let Some(numbers) = spool_numbers(words) else {
        return true;
    };
    let Ok(pairs) = spool_pairs(alloc, words) else {
        return false;
    };
    numbers.workers as usize <= workers && jobs == pairs.len()
}

// Whether no job has calls of a cache.
fn are_fresh(jobs: &[TableJob]) -> bool
    ensures { IsTrue result → (k : ℕ) (d : _) → k < length jobs.now
        → (slice_index_or jobs.now k d).history.items ≡ [] }
{
    for job in jobs {
        if !job.history.is_empty() {
            return false;
        }
    }
    true
}

// Adds the status of each job and its pages, a line each.
fn add_jobs(alloc: Global, text: &mut String, jobs: &[TableJob]) -> Result<(), NoMemory> {
    for job in jobs {
        let part = format!(in alloc; "\n  {}", job.status)?;
        text.push_str(&part)?;
        add_pages(alloc, text, job.out.bytes())?;
    }
    Ok(())
}

/// What comes of a run over these jobs: the answer and the notes, and then for each job a line with
/// its status and its pages. `InvalidInput` comes where the words ask for other counts of jobs or
/// workers, or a job has a history.
pub fn spool<R: Threads + Wait + Sync>(
    rt: &R,
    alloc: Global,
    library: &Library,
    case: &mut Case,
    jobs: &mut [TableJob],
) -> io::Result<String> {
    let mut notes = case.streams(alloc)?.notes;
    let count = case.workers.max(1).min(32) as usize;
    let mut workers = some_workers(alloc, library, &case.failures, count)?;
    name_files(alloc, &mut case.words, jobs.len())?;
    if !are_fresh(jobs) || !is_fit(alloc, &case.words, jobs.len(), count) {
        return Err(ErrorKind::InvalidInput.into());
    }
    let answer = spool_run(rt, alloc, &case.words, jobs, &mut workers, &mut notes);
    let mut text = format!(in alloc; "{answer} ")?;
    add_notes(alloc, &mut text, notes.bytes(), &case.note_ends)?;
    add_jobs(alloc, &mut text, jobs)?;
    Ok(text)
}
