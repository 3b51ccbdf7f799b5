//! What is loaded from sources of font files.

use super::judge;
use outside::{FileName, FontName, FontSource, Library, LoadStop, MemFonts, PickyFonts, SureFonts};
use std::alloc::{AllocError as NoMemory, Global};
use std::sync::Arc;

// What is asked for files.
#[derive(Clone, Copy)]
enum Source {
    // The library itself.
    Shelf,
    // A source that never fails.
    Sure,
    // A source of which the listed loads fail, and which tells what was asked for.
    Failing(&'static [u64]),
    // The same with the loads that fail and those that find no memory.
    Starving(&'static [u64], &'static [u64]),
    // A source that fails where the name of a file begins so.
    Picky(&'static [u8]),
}

fn add(library: &mut Library, alloc: Global, name: &[u8], bytes: &[u8]) -> Result<(), NoMemory> {
    library.add(FileName::new(alloc, name)?, Vec::from_slice(alloc, bytes)?)?;
    Ok(())
}

fn library_of(alloc: Global, files: &[(&[u8], &[u8])]) -> Result<Library, NoMemory> {
    let mut library = Library::new(alloc);
    for (name, bytes) in files {
        add(&mut library, alloc, name, bytes)?;
    }
    Ok(library)
}

// What a load gives: bytes, `none` where there is no file, `failed` where the load fails and
// `starved` where it finds no memory, with a space after it.
fn tell(told: &mut Vec<u8>, loaded: Result<Option<&[u8]>, LoadStop>) -> Result<(), NoMemory> {
    match loaded {
        Ok(Some(bytes)) => told.extend_from_slice(bytes)?,
        Ok(None) => told.extend_from_slice(b"none")?,
        Err(LoadStop::Failed) => told.extend_from_slice(b"failed")?,
        Err(LoadStop::NoMemory) => told.extend_from_slice(b"starved")?,
    }
    told.push(b' ')?;
    Ok(())
}

fn tell_loads<F: FontSource>(
    told: &mut Vec<u8>,
    alloc: Global,
    mut fonts: F,
    names: &[&[u8]],
) -> Result<F, NoMemory> {
    for name in names {
        match fonts.load(&FileName::new(alloc, name)?) {
            Ok(found) => tell(told, Ok(found.as_deref()))?,
            Err(stop) => tell(told, Err(stop))?,
        }
    }
    Ok(fonts)
}

fn tell_shelf(
    told: &mut Vec<u8>,
    alloc: Global,
    library: &Library,
    names: &[&[u8]],
) -> Result<(), NoMemory> {
    for name in names {
        tell(told, Ok(library.get(&FileName::new(alloc, name)?)))?;
    }
    Ok(())
}

// The names that were asked for.
fn tell_asked(told: &mut Vec<u8>, fonts: &MemFonts) -> Result<(), NoMemory> {
    told.extend_from_slice(b"of ")?;
    for name in fonts.asked().ok_or(NoMemory)? {
        tell(told, Ok(Some(name.bytes())))?;
    }
    Ok(())
}

fn told(
    alloc: Global,
    files: &[(&[u8], &[u8])],
    source: Source,
    names: &[&[u8]],
) -> Result<Vec<u8>, NoMemory> {
    let mut told = Vec::new(alloc);
    let library = Arc::new(alloc, library_of(alloc, files)?)?;
    match source {
        Source::Shelf => tell_shelf(&mut told, alloc, &library, names)?,
        Source::Sure => {
            tell_loads(&mut told, alloc, SureFonts::new(library), names)?;
        }
        Source::Failing(fails) => {
            let fonts = MemFonts::new(library, Vec::from_slice(alloc, fails)?);
            let fonts = tell_loads(&mut told, alloc, fonts, names)?;
            tell_asked(&mut told, &fonts)?;
        }
        Source::Starving(fails, starves) => {
            let starves = Vec::from_slice(alloc, starves)?;
            let fonts = MemFonts::starving(library, Vec::from_slice(alloc, fails)?, starves);
            let fonts = tell_loads(&mut told, alloc, fonts, names)?;
            tell_asked(&mut told, &fonts)?;
        }
        Source::Picky(front) => {
            let fonts = PickyFonts::new(library, FontName::new(alloc, front)?);
            tell_loads(&mut told, alloc, fonts, names)?;
        }
    }
    Ok(told)
}

// One name, added twice: the later file counts.
const TWICE: [(&'static [u8], &'static [u8]); 2] = [
    (b"cmr10.tfm", b"first"),
    (b"cmr10.tfm", b"second"),
];

const BARS: [(&'static [u8], &'static [u8]); 2] = [
    (b"bar.tfm", b"bar.tfm"),
    (b"ba.tfm", b"ba.tfm"),
];

// The files, what is asked for them, the names that it is asked for, and what is told.
static ROWS: [(
    &'static [(&'static [u8], &'static [u8])],
    Source,
    &'static [&'static [u8]],
    &'static str,
); 5] = [
    (
        &TWICE,
        Source::Shelf,
        &[b"cmr10.tfm", b"cmr10.vf"],
        "second none ",
    ),
    (
        &TWICE,
        Source::Sure,
        &[b"cmr10.tfm", b"cmr10.vf"],
        "second none ",
    ),
    (
        &TWICE,
        Source::Failing(&[1, 3]),
        &[b"cmr10.tfm", b"cmr10.tfm", b"cmr10.vf", b"cmr10.vf"],
        "failed second failed none of cmr10.tfm cmr10.tfm cmr10.vf cmr10.vf ",
    ),
    (
        &TWICE,
        Source::Starving(&[1], &[1, 3]),
        &[b"cmr10.tfm", b"cmr10.tfm", b"cmr10.tfm", b"cmr10.vf"],
        "failed second starved none of cmr10.tfm cmr10.tfm cmr10.tfm cmr10.vf ",
    ),
    (
        &BARS,
        Source::Picky(b"bar"),
        &[b"bar.tfm", b"ba.tfm", b"bar", b"dot.tfm"],
        "failed ba.tfm failed none ",
    ),
];

#[test]
fn sources_load_files(rt: HostRuntime) {
    for (row, (files, source, names, expected)) in ROWS.iter().enumerate() {
        judge(&rt, row, told(rt.alloc(), files, *source, names), expected);
    }
}
