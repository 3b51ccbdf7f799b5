//! What holds of each run, whatever the schedule of its workers was.

use crate::case::Case;
use crate::fonts::Fonts;
use crate::machine::{Room, is_history};
use cache_core::{Act, Entry};
use outside::{FileName, Library};
use page_workers::Worker;
use std::alloc::{AllocError as NoMemory, Global};

// Whether no worker has a seat or a result.
fn are_idle(workers: &[Worker<Fonts<'_>>]) -> bool {
    workers.iter().all(|worker| worker.seat.is_none() && worker.results.is_empty())
}

// Whether each worker's pages rise, and all are the first ones, each drawn once, by one of the
// first n workers.
fn are_shared(alloc: Global, workers: &[Worker<Fonts<'_>>], used: usize) -> Result<bool, NoMemory> {
    let mut all = Vec::new(alloc);
    for (k, worker) in workers.iter().enumerate() {
        if !worker.pages.is_sorted() || (used <= k && !worker.pages.is_empty()) {
            return Ok(false);
        }
        all.extend_from_slice(&worker.pages)?;
    }
    all.sort_unstable();
    for (i, page) in all.iter().enumerate() {
        if *page != i {
            return Ok(false);
        }
    }
    Ok(true)
}

/// How many pages were drawn.
pub fn pages_drawn(workers: &[Worker<Fonts<'_>>]) -> u64 {
    let mut drawn = 0u64;
    for worker in workers {
        drawn = drawn.saturating_add(worker.pages.len() as u64);
    }
    drawn
}

/// How many loads the workers asked of their sources.
pub fn loads_of(workers: &[Worker<Fonts<'_>>]) -> u64 {
    let mut loads = 0u64;
    for worker in workers {
        loads = loads.saturating_add(worker.loads);
    }
    loads
}

// Whether the number of pages that were drawn is wanted.
fn is_wanted(drawn: u64, wanted: &[u64]) -> bool {
    match (wanted.first(), wanted.last()) {
        (Some(least), Some(most)) => *least <= drawn && drawn <= *most,
        _ => true,
    }
}

// Whether a call looks a font up, and whether it finds none.
fn look(entry: &Entry) -> (bool, bool) {
    match &entry.act {
        Act::Hit => (true, false),
        Act::Claimed | Act::Busy => (true, true),
        Act::Filled(_) | Act::Released => (false, false),
    }
}

// The first letters of the fonts that a seat looks up.
fn looks_of(alloc: Global, history: &[Entry], seat: usize) -> Result<Vec<u8>, NoMemory> {
    let mut letters = Vec::new(alloc);
    for entry in history {
        if entry.seat as usize == seat && look(entry).0 {
            letters.push(entry.key.name.bytes().first().copied().unwrap_or(0))?;
        }
    }
    Ok(letters)
}

// The first letters of the fonts that these pages look up.
fn looks_for(alloc: Global, pages: &[usize], looks: &[Vec<u8>]) -> Result<Vec<u8>, NoMemory> {
    let mut letters = Vec::new(alloc);
    for page in pages {
        if let Some(look) = looks.get(*page) {
            letters.extend_from_slice(look)?;
        }
    }
    Ok(letters)
}

// Whether the look-ups of each worker's seat are those of the pages that it drew.
fn are_looked_up(
    alloc: Global,
    history: &[Entry],
    workers: &[Worker<Fonts<'_>>],
    looks: &[Vec<u8>],
) -> Result<bool, NoMemory> {
    for (k, worker) in workers.iter().enumerate() {
        let made = looks_of(alloc, history, k.wrapping_add(1))?;
        let wanted = looks_for(alloc, &worker.pages, looks)?;
        if made != wanted {
            return Ok(false);
        }
    }
    Ok(true)
}

// How many files a call loads, where each font that it looks up has its files: a look-up that finds
// none loads the TFM and the VF file, and where there is no VF file the PK file.
fn loads_for(alloc: Global, library: &Library, entry: &Entry) -> Result<u64, NoMemory> {
    if !look(entry).1 {
        return Ok(0);
    }
    let mut name = Vec::from_slice(alloc, entry.key.name.bytes())?;
    name.extend_from_slice(b".vf")?;
    let is_virtual = library.get(&FileName::new(alloc, &name)?).is_some();
    Ok(if is_virtual { 2 } else { 3 })
}

// Whether the workers' loads are those of the history.
fn are_loads(
    alloc: Global,
    library: &Library,
    history: &[Entry],
    loads: u64,
) -> Result<bool, NoMemory> {
    let mut wanted = 0u64;
    for entry in history {
        wanted = wanted.saturating_add(loads_for(alloc, library, entry)?);
    }
    Ok(wanted == loads)
}

/// What is wrong with a run's work; nothing where it is as it should be.
pub fn wrong_with(
    alloc: Global,
    library: &Library,
    case: &Case,
    workers: &[Worker<Fonts<'_>>],
    history: &[Entry],
) -> Result<&'static str, NoMemory> {
    let used = case.setting("--workers", 1) as usize;
    let room = Room {
        fonts: case.setting("--cache", 16) as usize,
        bytes: case.setting("--room", 2_147_483_648),
    };
    if !are_idle(workers) {
        return Ok(", wrong: a worker has a seat or a result");
    }
    if !are_shared(alloc, workers, used)? {
        return Ok(", wrong: the pages are not shared out");
    }
    if !is_wanted(pages_drawn(workers), &case.drawn) {
        return Ok(", wrong: too few or too many pages were drawn");
    }
    if !is_history(alloc, history, room)? {
        return Ok(", wrong: no cache makes these calls");
    }
    if case.looks.is_empty() {
        return Ok("");
    }
    if !are_looked_up(alloc, history, workers, &case.looks)? {
        return Ok(", wrong: other fonts were looked up");
    }
    if !are_loads(alloc, library, history, loads_of(workers))? {
        return Ok(", wrong: other files were loaded");
    }
    Ok("")
}
