//! The program: draws the DVI document on standard input with the fonts of a folder, and writes its
//! pages as PBM bitmaps on standard output. The folder is named by the environment variable
//! `DVIPBM_FONTS`; where that isn't set it is the current folder.
#![tactic(auto)]

use real_outside::{Outcome, draw_streams};
use real_streams::FolderOpener;
use std::env::{self, VarError};
use std::io::ErrorKind;
use std::path::PathBuf;
use std::process::ExitCode;

// Memory runs out for the arguments or for the folder's name.
const NO_MEMORY: u8 = 9;

// The arguments or the folder's name can't be had. No run ends this way.
const NO_WORDS: u8 = 10;

// The words after the program's name.
fn words(rt: &HostRuntime) -> Result<Vec<String>, u8> {
    let args = match env::args(rt) {
        Ok(args) => args,
        Err(error) if error.kind() == ErrorKind::OutOfMemory => return Err(NO_MEMORY),
        Err(_) => return Err(NO_WORDS),
    };
    let mut words: Vec<String> = Vec::new(rt.alloc());
    for word in args.skip(1) {
        words.push(word).map_err(|_| NO_MEMORY)?;
    }
    Ok(words)
}

// The folder of the font files.
fn fonts_folder(rt: &HostRuntime) -> Result<PathBuf, u8> {
    match env::var(rt, "DVIPBM_FONTS") {
        Ok(name) => Ok(PathBuf::from(name)),
        Err(VarError::NotPresent) => Ok(PathBuf::new(rt.alloc())),
        Err(VarError::NotUnicode) => Err(NO_WORDS),
        Err(VarError::OutOfMemory) => Err(NO_MEMORY),
    }
}

fn main(rt: HostRuntime) -> ExitCode {
    let alloc = rt.alloc();
    let words = match words(&rt) {
        Ok(words) => words,
        Err(status) => return ExitCode::from(status),
    };
    let folder = match fonts_folder(&rt) {
        Ok(folder) => folder,
        Err(status) => return ExitCode::from(status),
    };
    let fonts = FolderOpener::new(&rt, alloc, &folder);
    let (input, out, notes) = (rt.stdin(), rt.stdout(), rt.stderr());
    let Outcome { status, .. } = draw_streams(&rt, alloc, &words, fonts, input, out, notes);
    ExitCode::from(status)
}
