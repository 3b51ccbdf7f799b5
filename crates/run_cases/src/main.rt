//! Whole runs of the driver as a table: reads it on standard input, prints each line as it stands,
//! and below each run what came of it. So the expected text is the table with one line more below
//! each run, which is worked out by hand, as below this run of two pages, each with one character:
//!
//! ```text
//! run --width=8 --height=2 --left=0 --top=1 fonts=$dot pages=ab41,ab42
//!   3 "dvipbm: page 2 at 128: no character 66 in dot 128 128\n": P4 8 2 c0*2
//! ```
//!
//! A line of the table is one of these:
//!
//! - `# TEXT`, a heading or a remark, or an empty line.
//! - `let NAME BYTES` names bytes. BYTES are parts joined by `+`: hex digits, `'` and a word, or
//!   `$` and a name, each with `*N` behind it where it stands N times.
//! - `folder` begins a folder of font files, which is empty, and `file NAME BYTES` puts one in.
//! - `run FIELD..` is a run of `dvipbm_run` over the folder. A field that begins with a hyphen is
//!   an argument, and so is TEXT in `word=TEXT`. The others are KEY=VALUE:
//!   - The document: `doc=BYTES`, then `at=N:BYTES`, which stand there from byte N on, and `cut=N`,
//!     the first N bytes. Or it is made, at half a dot for a DVI unit: `fonts=BYTES` are its
//!     definitions, and then `pages=BYTES,..` adds pages, each by the commands between its
//!     beginning and its end; `pages=N:BYTES,..` adds all of them N times.
//!   - `read=N`, `write=N`, `note=N`: how many bytes a read gives, and the output and the notes
//!     take at once (64). `workers=N`: how many workers are at hand (1).
//!   - `failed_reads=N,..`, `failed_writes=N,..`, `failed_notes=N,..`: which calls fail, counted
//!     from 1; `failed_loads=N,..`: which loads of each worker's source, and `starved_loads=N,..`
//!     which of them find no memory; `failed_files=TEXT`: the loads of files whose names begin so.
//!   - `drawn=LEAST,MOST`: how many pages are to be drawn. `looks=TEXT,..`: of each page the first
//!     letters of the fonts that it is to look up, `looks=N:TEXT,..` N times. Then a look-up that
//!     finds no font is to load the TFM and the VF file, and the PK file where there is no VF file.
//!   - `counts=NAME,..` tells the cache's `calls`, the `loads` that the workers asked of their
//!     sources, those that the sources of this table were `asked` for, or how many pages were
//!     `drawn`.
//!   - `note_ends=N,M`: only the first N and the last M bytes of the notes are told.
//! - `job FIELD..` adds a job with the document and the streams that a run would have by these
//!   fields, and `spool FIELD..` is a run of `spool_run` over the folder and the jobs since the
//!   last one. Its words are those of `word=TEXT`, and then two names of files for each job.
//! - `may TEXT`, before a run whose end hangs on the schedule of its workers: one of the lines that
//!   may stand below it. If one of them would, `one of these` does.
//!
//! Below a spool stand its answer and its notes, and for each job a line with its status and its
//! pages. Below a run stand its status, its notes, the counts, and each page that was written:
//! `P4`, its width and height, and the bytes of its rows in hex, with `*N` behind a byte that
//! stands there N times; `=K` is page K once more. What holds of every run is told only where it is
//! wrong: no worker keeps a seat or a result; the pages drawn are the first ones, each drawn once,
//! by one of as many workers as `--workers=N` says (1), each worker's in rising order; and the
//! calls are those of a cache with room for as many fonts as `--cache=N` says (16), which weigh
//! together no more bytes than `--room=N` says (2147483648).
#![tactic(auto)]

mod bytes;
mod case;
mod document;
mod fonts;
mod judge;
mod machine;
mod outcome;
mod show;
mod spooled;

use bytes::Names;
use case::Case;
use outcome::run;
use outside::{FileName, Library};
use spooled::{TableJob, job_of, spool};
use std::alloc::{AllocError as NoMemory, Global};
use std::io::{self, ErrorKind, Print};
use std::sync::Wait;
use std::thread::Threads;

// What the lines before this one told.
#[derive(Drop)]
struct Told {
    names: Names,
    folder: Library,
    // What the next run may come to.
    permitted: Vec<String>,
    // The jobs of the next spool.
    jobs: Vec<TableJob>,
}

// Takes in `NAME BYTES`.
fn name(alloc: Global, told: &mut Told, text: &str) -> io::Result<()> {
    let (name, bytes) = text.split_once(' ').unwrap_or((text, ""));
    let bytes = told.names.bytes(alloc, bytes)?;
    told.names.add(alloc, name, bytes)?;
    Ok(())
}

// Puts a file into the folder.
fn put(alloc: Global, told: &mut Told, text: &str) -> io::Result<()> {
    let (name, bytes) = text.split_once(' ').unwrap_or((text, ""));
    let bytes = told.names.bytes(alloc, bytes)?;
    let name = FileName::new(alloc, name.as_bytes())?;
    told.folder.add(name, bytes)?;
    Ok(())
}

// Takes in what the next run may come to.
fn permit(alloc: Global, told: &mut Told, text: &str) -> Result<(), NoMemory> {
    told.permitted.push(String::from_str(alloc, text)?)?;
    Ok(())
}

// The case that these fields tell.
fn case_of(alloc: Global, names: &Names, fields: &str) -> io::Result<Case> {
    let mut case = Case::new(alloc);
    for field in fields.split(' ') {
        case.take(alloc, names, field)?;
    }
    Ok(case)
}

// What comes of a run.
fn came_of<R: Threads + Wait + Sync>(
    rt: &R,
    alloc: Global,
    told: &Told,
    fields: &str,
) -> io::Result<String> {
    let mut case = case_of(alloc, &told.names, fields)?;
    let streams = case.streams(alloc)?;
    let outcome = run(rt, alloc, &told.folder, &case, streams)?;
    Ok(outcome.text(alloc, &case)?)
}

// Tells what comes of a run.
fn print_line<R: Print + Threads + Wait + Sync>(
    rt: &R,
    alloc: Global,
    told: &mut Told,
    fields: &str,
) -> io::Result<()> {
    let text = came_of(rt, alloc, told, fields)?;
    if told.permitted.contains(&text) {
        println!(rt; "  one of these")?;
    } else {
        println!(rt; "  {text}")?;
    }
    told.permitted.clear();
    Ok(())
}

// Takes a job in.
fn add_job(alloc: Global, told: &mut Told, fields: &str) -> io::Result<()> {
    let mut case = case_of(alloc, &told.names, fields)?;
    told.jobs.push(job_of(alloc, &mut case)?)?;
    Ok(())
}

// Tells what comes of a spool.
fn print_spool<R: Print + Threads + Wait + Sync>(
    rt: &R,
    alloc: Global,
    told: &mut Told,
    fields: &str,
) -> io::Result<()> {
    let mut case = case_of(alloc, &told.names, fields)?;
    let text = spool(rt, alloc, &told.folder, &mut case, &mut told.jobs)?;
    println!(rt; "  {text}")?;
    told.jobs.clear();
    Ok(())
}

// Does what a line of the table says.
fn follow<R: Print + Threads + Wait + Sync>(
    rt: &R,
    alloc: Global,
    told: &mut Told,
    line: &str,
) -> io::Result<()> {
    println!(rt; "{line}")?;
    let (word, rest) = line.split_once(' ').unwrap_or((line, ""));
    match word {
        "let" => name(alloc, told, rest),
        "file" => put(alloc, told, rest),
        "may" => Ok(permit(alloc, told, rest)?),
        "run" => print_line(rt, alloc, told, rest),
        "job" => add_job(alloc, told, rest),
        "spool" => print_spool(rt, alloc, told, rest),
        "folder" => {
            told.folder = Library::new(alloc);
            Ok(())
        }
        "#" | "" => Ok(()),
        _ => Err(ErrorKind::InvalidInput.into()),
    }
}

fn main(rt: HostRuntime) -> io::Result<()> {
    let alloc = rt.alloc();
    let mut told = Told {
        names: Names::new(alloc),
        folder: Library::new(alloc),
        permitted: Vec::new(alloc),
        jobs: Vec::new(alloc),
    };
    for line in rt.lines(alloc) {
        follow(&rt, alloc, &mut told, &line?)?;
    }
    Ok(())
}
