//! Workers, and a round of theirs over a new cache.
ghost use Rattle.std.specs.Prelude.{◌≡◌, ◌≤◌, All, IfOk, length};
ghost use Rattle.page_workers.specs.Seating.{IsUnused};

use super::files::library;
use super::opening::open_cache;
use super::source::{Plan, Planned};
use cache_core::Entry;
use outside::{FontSource, Library};
use page_draw::Sheet;
use page_index::Index;
use page_workers::{Bench, Worker, draw_round, join_all, seat_all};
use raster_page::Page;
use std::alloc::Global;
use std::sync::atomic::AtomicU32;
use std::sync::{Arc, Wait};
use std::test::Fail;
use std::thread::Threads;

/// The sheet of all pages.
pub static SHEET: Sheet = Sheet {
    width: 8,
    height: 2,
    left: 0,
    top: 1,
    tolerant: false,
};

// A page whose dots are all black.
fn black_page(alloc: Global, width: u8, height: u8) -> Result<Page, Fail> {
    let (width, height) = (width.max(1), height.max(1));
    let mut page = Page::blank(alloc, u32::from(width), u32::from(height))?;
    page.rule(0, 0, i64::from(width), i64::from(height));
    Ok(page)
}

// Gives a worker black pages of these sides as paper.
fn give_spare_pages(
    alloc: Global,
    worker: &mut Worker<Planned>,
    spare_pages: &[(u8, u8)],
) -> Result<(), Fail>
    requires { IsUnused worker.old }
    ensures { IsUnused worker.new }
{
    for &(width, height) in spare_pages {
        worker.give_back(black_page(alloc, width, height)?);
    }
    Ok(())
}

fn new_worker(
    alloc: Global,
    library: &Arc<Library>,
    begun: &Arc<AtomicU32>,
    plan: Plan,
) -> Result<Worker<Planned>, Fail>
    ensures unused { IfOk result (λ worker. IsUnused worker) }
{
    let source = Planned {
        library: Arc::try_clone(library)?,
        begun: Arc::try_clone(begun)?,
        plan,
        loads: 0,
        faults: 0,
    };
    Ok(Worker::new(alloc, source))
}

/// n workers whose sources go by this plan, each with paper of these sides.
pub fn crew(
    alloc: Global,
    count: usize,
    plan: Plan,
    spare_pages: &[(u8, u8)],
) -> Result<Vec<Worker<Planned>>, Fail>
    ensures count { IfOk result (λ workers. length workers.items ≡ count) }
    ensures unused { IfOk result (λ workers. All IsUnused workers.items) }
{
    let library = library(alloc)?;
    let begun = Arc::new(alloc, AtomicU32::new(0))?;
    let mut workers = Vec::new(alloc);
    for _i in 0..count {
        let mut worker = new_worker(alloc, &library, &begun, plan)?;
        give_spare_pages(alloc, &mut worker, spare_pages)?;
        workers.push(worker)?;
    }
    Ok(workers)
}

/// One round of all pages of a document, of which there are 1 to 32, over a new cache of `capacity`
/// fonts. Gives the cache's history.
pub fn one_round<R: Threads + Wait + Sync, F: FontSource + Send>(
    rt: &R,
    alloc: Global,
    workers: &mut [Worker<F>],
    capacity: usize,
    index: &Index,
) -> Result<Vec<Entry>, Fail>
    requires some_worker { 1 ≤ length workers.old }
    requires few { length workers.old ≤ 32 }
    requires some_font { 1 ≤ capacity }
    requires few_fonts { capacity ≤ 256 }
    requires unused { All IsUnused workers.old }
{
    let count = index.pages();
    if !(1..=32).contains(&count) {
        return Err(Fail::from("no page, or more than a round has"));
    }
    let units = index.units();
    let (cache, mut first) = open_cache(alloc, capacity, 2_147_483_648, &units)?;
    let bench = Bench { cache, units };
    seat_all(&bench.cache, &mut first, workers);
    draw_round(rt, alloc, workers, &bench, index, &SHEET, 0, count)?;
    join_all(&bench.cache, &mut first, workers);
    let Bench { cache, units: _ } = bench;
    Ok(cache.close(first))
}
