//! Rounds of workers over one cache, with documents at half a dot for a unit: tables, and one test
//! that goes over them.

mod crew;
mod files;
mod late_rows;
mod opening;
mod outcome;
mod rows;
mod source;
mod spare_pages;

use crew::{crew, one_round};
use files::document;
use late_rows::LATE_ROWS;
use outcome::{OfRound, round_told};
use page_index::Index;
use rows::{Case, ROWS};
use std::alloc::Global;
use std::sync::Wait;
use std::test::Fail;
use std::thread::Threads;

// What a round of all pages of a document comes to.
fn told<R: Threads + Wait + Sync>(rt: &R, alloc: Global, case: &Case) -> Result<OfRound, Fail> {
    let (count, fonts, pages, plan, spare_pages, by_chance) = *case;
    let bytes = document(alloc, pages)?;
    let Ok(index) = Index::read(alloc, &bytes, 300) else {
        return Err(Fail::from("no document"));
    };
    let mut workers = crew(alloc, usize::from(count).max(1).min(32), plan, spare_pages)?;
    let history = one_round(rt, alloc, &mut workers, usize::from(fonts).max(1), &index)?;
    Ok(round_told(&workers, &history, by_chance))
}

#[test]
fn rounds(rt: HostRuntime) -> Result<(), Fail> {
    for (row, (case, expected)) in ROWS.iter().chain(LATE_ROWS.iter()).enumerate() {
        assert_eq!(rt; told(&rt, rt.alloc(), case)?, *expected, "row {row}");
    }
    Ok(())
}
