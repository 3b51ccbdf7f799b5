//! What a round came to.

use super::source::Planned;
use cache_core::{Act, Entry};
use page_draw::PageStop;
use page_workers::{PageResult, Worker};

/// What came of a page: how many results there are of it, the first eight dots of the last of them
/// and how many dots are black, or the letter of what stopped it, and of the worker that drew it
/// how many pages it drew and how many loads it asked for.
pub type OfPage = (u32, u8, u64, char, usize, u64);

/// What came of the first four pages.
pub type OfPages = (OfPage, OfPage, OfPage, OfPage);

/// What came of a round: its pages; how many were drawn; how many calls of the cache are hits,
/// claims, busy looks, fills and releases, and by how many fills a font left; the loads and the
/// faults of all sources; and whether each worker was left as it should be.
pub type OfRound = (OfPages, usize, [u32; 6], u64, u64, bool);

// The first eight dots of a result, how many are black, and the letter of what stopped it.
fn outcome_of(drawn: &PageResult) -> (u8, u64, char) {
    match &drawn.outcome {
        Ok(whole) => {
            let page = &whole.page;
            let dots = if page.height() == 0 {
                0
            } else {
                page.row(0).first().copied().unwrap_or(0)
            };
            (dots, page.count(), 'w')
        }
        Err(PageStop::Fault { fault: _, at: _ }) => (0, 0, 'f'),
        Err(PageStop::SourceFault) => (0, 0, 's'),
        Err(PageStop::NoMemory) => (0, 0, 'm'),
    }
}

// What came of a page. Where chance decides who draws, its worker isn't shown.
fn page_told(workers: &[Worker<Planned>], page: usize, by_chance: bool) -> OfPage {
    let mut told = (0u32, 0, 0, '-', 0, 0);
    for worker in workers {
        for drawn in &worker.results {
            if drawn.page == page {
                let (dots, black, letter) = outcome_of(drawn);
                let (pages, loads) = if by_chance {
                    (0, 0)
                } else {
                    (worker.pages.len(), worker.loads)
                };
                told = (told.0.saturating_add(1), dots, black, letter, pages, loads);
            }
        }
    }
    told
}

// Whether a worker's pages rise and are those of its results, and it has no seat any more.
fn is_left(worker: &Worker<Planned>) -> bool {
    let mut next = 0;
    for (i, page) in worker.pages.iter().enumerate() {
        let Some(drawn) = worker.results.get(i) else {
            return false;
        };
        if drawn.page != *page || *page < next {
            return false;
        }
        next = page.saturating_add(1);
    }
    worker.results.len() == worker.pages.len() && worker.seat.is_none() && worker.counter.is_none()
}

// How many of the entries are of which kind.
fn counts_of(history: &[Entry]) -> [u32; 6] {
    let mut counts = [0u32; 6];
    for entry in history {
        let kind = match &entry.act {
            Act::Hit => 0,
            Act::Claimed => 1,
            Act::Busy => 2,
            Act::Filled(_) => 3,
            Act::Released => 4,
        };
        counts[kind] = counts[kind].saturating_add(1);
        if let Act::Filled(fill) = &entry.act {
            let evicted = u32::try_from(fill.gone.keys().len()).unwrap_or(u32::MAX);
            counts[5] = counts[5].saturating_add(evicted);
        }
    }
    counts
}

/// What a round came to. Where it is `by_chance` whether a look hits or finds a font busy, which
/// the worker then loads for itself in three loads, busy looks are shown as hits, without their
/// loads.
pub fn round_told(workers: &[Worker<Planned>], history: &[Entry], by_chance: bool) -> OfRound {
    let mut counts = counts_of(history);
    let (mut drawn, mut loads, mut faults, mut left) = (0usize, 0u64, 0u64, true);
    for worker in workers {
        drawn = drawn.saturating_add(worker.pages.len());
        loads = loads.saturating_add(worker.loads);
        faults = faults.saturating_add(worker.source.faults);
        left = left && is_left(worker);
    }
    if by_chance {
        loads = loads.saturating_sub(3 * u64::from(counts[2]));
        counts[0] = counts[0].saturating_add(counts[2]);
        counts[2] = 0;
    }
    let pages = (
        page_told(workers, 0, by_chance),
        page_told(workers, 1, by_chance),
        page_told(workers, 2, by_chance),
        page_told(workers, 3, by_chance),
    );
    (pages, drawn, counts, loads, faults, left)
}
