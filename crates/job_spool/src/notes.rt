//! What a run over several documents prints in its notes.
ghost use Rattle.std.specs.Prelude.{◌≡◌, ◌≤◌, ◌<◌, ◌+◌, ◌-◌, ◌^◌, cond, length};
ghost use Rattle.outside.specs.Streams.{Writes};
ghost use Rattle.cache_core.specs.Views.{calls_of, done_of};
ghost use Rattle.run_report.specs.Puts.{Puts};
ghost use Rattle.run_report.specs.Summary as kinds;
ghost use Rattle.run_report.specs.Summary.{count_line, count_of};
ghost use Rattle.dvi_run.specs.Endings.{IsPrinted};
ghost use Rattle.job_spool.specs.Limits.{MAX_JOBS};
ghost use Rattle.job_spool.specs.Notes.{counts_text, first_refusal as first_refusal_of, hits_of, job_line, job_lines, looks_of, notes_text, statuses_of, usage_text};

use crate::job::Job;
use cache_core::{Act, Entry};
use itoa::Integer;
use outside::{Failed, Gather, Output};
use run_report::puts::{put, put_number};
use std::alloc::Global;

// Whether a key was looked up.
fn is_look(act: &Act) -> bool
    ensures { result ≡ kinds.is_look (done_of act.now) }
{
    matches!(act, Act::Hit | Act::Claimed | Act::Busy)
}

// Whether its font was found.
fn is_hit(act: &Act) -> bool
    ensures { result ≡ kinds.is_hit (done_of act.now) }
{
    matches!(act, Act::Hit)
}

// One more where it is of the kind.
fn counted(count: u64, is_kind: bool) -> u64
    requires { count < 2 ^ 64 - 1 }
    ensures { result ≡ count + cond is_kind 1 0 }
{
    if is_kind { count + 1 } else { count }
}

// How many keys were looked up.
fn looks_in(history: &[Entry]) -> u64
    ensures { result ≡ count_of kinds.is_look (calls_of history.now) }
{
    let mut looks = 0;
    for entry in history {
        looks = counted(looks, is_look(&entry.act));
    }
    looks
}

// Of how many the font was found.
fn hits_in(history: &[Entry]) -> u64
    ensures { result ≡ count_of kinds.is_hit (calls_of history.now) }
{
    let mut hits = 0;
    for entry in history {
        hits = counted(hits, is_hit(&entry.act));
    }
    hits
}

fn all_looks<I, O>(jobs: &[Job<I, O>]) -> u128
    requires few { length jobs.now ≤ MAX_JOBS }
    ensures { result ≡ looks_of jobs.now }
{
    let mut looks: u128 = 0;
    for job in jobs {
        looks += u128::from(looks_in(&job.history));
    }
    looks
}

fn all_hits<I, O>(jobs: &[Job<I, O>]) -> u128
    requires few { length jobs.now ≤ MAX_JOBS }
    ensures { result ≡ hits_of jobs.now }
{
    let mut hits: u128 = 0;
    for job in jobs {
        hits += u128::from(hits_in(&job.history));
    }
    hits
}

// Puts the line of a job, counted from 1.
fn put_job<N: Output>(gather: &mut Gather, notes: &mut N, job: usize, status: u8)
    ensures { Puts gather.old gather.new (N.written notes.old) (N.written notes.new)
        (N.faults notes.old) (N.faults notes.new) (job_line job status) }
{
    put(gather, notes, b"job ");
    put_number(gather, notes, job);
    put(gather, notes, b" status ");
    put_number(gather, notes, status);
    put(gather, notes, b"\n");
}

// Puts the lines of all jobs.
fn put_jobs<N: Output, I, O>(gather: &mut Gather, notes: &mut N, jobs: &[Job<I, O>])
    ensures { Puts gather.old gather.new (N.written notes.old) (N.written notes.new)
        (N.faults notes.old) (N.faults notes.new)
        (job_lines (statuses_of jobs.now) (length jobs.now)) }
{
    for k in 0..jobs.len() {
        put_job(gather, notes, k + 1, jobs[k].status);
    }
}

// Puts a name and a number.
fn put_count<N: Output>(gather: &mut Gather, notes: &mut N, name: &[u8], count: u128)
    ensures { Puts gather.old gather.new (N.written notes.old) (N.written notes.new)
        (N.faults notes.old) (N.faults notes.new) (count_line name.now count) }
{
    put(gather, notes, name);
    put(gather, notes, b" ");
    put_number(gather, notes, count);
    put(gather, notes, b"\n");
}

// Puts how many keys were looked up, of how many the font was found, and how many files were
// loaded.
fn put_counts<N: Output, I, O>(gather: &mut Gather, notes: &mut N, jobs: &[Job<I, O>], loads: u128)
    requires few { length jobs.now ≤ MAX_JOBS }
    ensures { Puts gather.old gather.new (N.written notes.old) (N.written notes.new)
        (N.faults notes.old) (N.faults notes.new) (counts_text jobs.now loads) }
{
    put_count(gather, notes, b"looks", all_looks(jobs));
    put_count(gather, notes, b"hits", all_hits(jobs));
    put_count(gather, notes, b"loads", loads);
}

// Puts all of the notes.
fn put_notes<N: Output, I, O>(gather: &mut Gather, notes: &mut N, jobs: &[Job<I, O>], loads: u128)
    requires few { length jobs.now ≤ MAX_JOBS }
    ensures { Puts gather.old gather.new (N.written notes.old) (N.written notes.new)
        (N.faults notes.old) (N.faults notes.new) (notes_text jobs.now loads) }
{
    put_jobs(gather, notes, jobs);
    put_counts(gather, notes, jobs, loads);
}

/// Prints a line for each job, and the counts of all.
pub fn print<N: Output, I, O>(
    alloc: Global,
    notes: &mut N,
    jobs: &[Job<I, O>],
    loads: u128,
) -> Result<(), Failed>
    requires few { length jobs.now ≤ MAX_JOBS }
    ensures { Writes (N.written notes.old) (N.written notes.new) (N.faults notes.old)
        (N.faults notes.new) (notes_text jobs.now loads) result }
{
    let mut gather = Gather::new(alloc);
    put_notes(&mut gather, notes, jobs, loads);
    gather.finish(notes)
}

/// Prints that the arguments aren't those of a spool.
pub fn print_usage<N: Output>(alloc: Global, notes: &mut N)
    ensures { IsPrinted (N.written notes.old) (N.written notes.new) (N.faults notes.old)
        (N.faults notes.new) usage_text }
{
    let mut gather = Gather::new(alloc);
    put(&mut gather, notes, b"dvispool: usage\n");
    let _ = gather.finish(notes);
}

/// The first status that isn't 0.
pub fn first_refusal<I, O>(jobs: &[Job<I, O>]) -> Option<u8>
    ensures { result ≡ first_refusal_of (statuses_of jobs.now) }
{
    jobs.iter()
        .map(|job| job.status)
        .find(|status| *status != 0)
}
