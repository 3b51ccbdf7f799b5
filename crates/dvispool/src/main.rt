//! The program: draws several DVI documents with the fonts of a folder, each to a file of PBM
//! bitmaps, over caches that they share. Its arguments are
//! `RES WORKERS CACHE IN OUT [IN OUT ..]`. The folder is named by the environment variable
//! `DVIPBM_FONTS`; where that isn't set it is the current folder. Each file is opened when it is
//! first read or written.
#![tactic(auto)]

mod jobs;

use job_spool::{SpoolStop, spool_pairs, spool_run};
use jobs::jobs_of;
use real_outside::workers_over;
use real_streams::ToWriter;
use std::env::{self, VarError};
use std::io::ErrorKind;
use std::marker::Brand;
use std::path::PathBuf;
use std::process::ExitCode;

// Memory runs out for the arguments, for the folder's name, for the jobs or for the workers.
const NO_MEMORY: u8 = 9;

// The arguments or the folder's name can't be had. No run ends this way.
const NO_WORDS: u8 = 10;

// The words after the program's name.
fn words(rt: &HostRuntime) -> Result<Vec<String>, u8> {
    let args = match env::args(rt) {
        Ok(args) => args,
        Err(error) if error.kind() == ErrorKind::OutOfMemory => return Err(NO_MEMORY),
        Err(_) => return Err(NO_WORDS),
    };
    let mut words: Vec<String> = Vec::new(rt.alloc());
    for word in args.skip(1) {
        words.push(word).map_err(|_| NO_MEMORY)?;
    }
    Ok(words)
}

// The folder of the font files.
fn fonts_folder(rt: &HostRuntime) -> Result<PathBuf, u8> {
    match env::var(rt, "DVIPBM_FONTS") {
        Ok(name) => Ok(PathBuf::from(name)),
        Err(VarError::NotPresent) => Ok(PathBuf::new(rt.alloc())),
        Err(VarError::NotUnicode) => Err(NO_WORDS),
        Err(VarError::OutOfMemory) => Err(NO_MEMORY),
    }
}

fn main(rt: HostRuntime) -> ExitCode {
    let alloc = rt.alloc();
    let words = match words(&rt) {
        Ok(words) => words,
        Err(status) => return ExitCode::from(status),
    };
    let folder = match fonts_folder(&rt) {
        Ok(folder) => folder,
        Err(status) => return ExitCode::from(status),
    };
    let pairs = match spool_pairs(alloc, &words) {
        Ok(pairs) => pairs,
        Err(SpoolStop::Usage) => Vec::new(alloc),
        Err(SpoolStop::NoMemory) => return ExitCode::from(NO_MEMORY),
    };
    let Ok(mut jobs) = jobs_of(&rt, alloc, &pairs) else {
        return ExitCode::from(NO_MEMORY);
    };
    let Ok(mut workers) = workers_over(&rt, alloc, &folder) else {
        return ExitCode::from(NO_MEMORY);
    };
    let mut notes = ToWriter::<Brand, _>::new(rt.stderr());
    let status = spool_run(&rt, alloc, &words, &mut jobs, &mut workers, &mut notes);
    ExitCode::from(status)
}
