//! Two jobs over one cache: what they answer, write, draw and look up.

mod opening;
mod outcome;
mod rows;
mod two_jobs;

use super::document::document;
use super::runs::crew;
use super::source::Plan;
use outcome::Came;
use page_index::Index;
use rows::{Case, ROWS};
use std::alloc::Global;
use std::sync::atomic::AtomicU32;
use std::sync::{Arc, Wait};
use std::test::Fail;
use std::thread::Threads;
use two_jobs::draw_both;

// No load is held.
const AT_ONCE: Plan = Plan {
    held: &[],
    awaited: &[],
    output_meets: false,
    by_chance: true,
};

// What two jobs over one cache come to.
fn came<R: Threads + Wait + Sync>(rt: &R, alloc: Global, case: &Case) -> Result<Came, Fail> {
    let (count, pages, later_pages) = *case;
    let bytes = document(alloc, pages)?;
    let later_bytes = document(alloc, later_pages)?;
    let (Ok(index), Ok(later_index)) = (
        Index::read(alloc, &bytes, 300),
        Index::read(alloc, &later_bytes, 300),
    ) else {
        return Err(Fail::from("no document"));
    };
    let begun = Arc::new(alloc, AtomicU32::new(0))?;
    let mut workers = crew(alloc, usize::from(count).max(1).min(32), &begun, AT_ONCE)?;
    draw_both(rt, alloc, &mut workers, (&index, &later_index))
}

#[test]
fn two_jobs_share_a_cache(rt: HostRuntime) -> Result<(), Fail> {
    for (row, (case, expected)) in ROWS.iter().enumerate() {
        let came = came(&rt, rt.alloc(), case)?;
        assert_eq!(rt; came.told(), *expected, "row {row}");
    }
    Ok(())
}
