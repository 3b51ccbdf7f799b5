//! Which jobs share a cache.
ghost use Rattle.std.specs.Prelude.{◌≡◌, ◌≤◌, ◌<◌, ◌*◌, IfOk, IfSome, length};
ghost use Rattle.job_spool.specs.Limits.{MAX_JOBS};
ghost use Rattle.job_spool.specs.Sharing.{cache_for, caches_of, document_at, has_units as document_has_units, last_with as last_job_with, pages_sharing as pages_of_sharers, pages_in, units_eq, units_in};

use page_index::Index;
use pixel_round::Units;
use std::alloc::{AllocError as NoMemory, Global};

// The most pages that the documents of one cache have together.
const MAX_SHARED_PAGES: usize = 1_000_000;

fn are_equal(a: &Units, b: &Units) -> bool
    ensures { result ≡ units_eq a.now b.now }
{
    a.num == b.num && a.den == b.den && a.mag == b.mag && a.res == b.res
}

// Whether a job has a document with these units.
fn has_units(document: &Option<Index<'_>>, units: &Units) -> bool
    ensures { result ≡ document_has_units units.now (units_in document.now) }
{
    match document {
        None => false,
        Some(index) => are_equal(units, &index.units()),
    }
}

// The last of the first n jobs that has.
fn last_with(documents: &[Option<Index<'_>>], units: &Units, count: usize) -> Option<usize>
    requires { count ≤ length documents.now }
    ensures last { result ≡ last_job_with documents.now units.now count }
    ensures below { IfSome result (λ k. k < count) }
{
    for k in (0..count).rev() {
        if has_units(&documents[k], units) {
            return Some(k);
        }
    }
    None
}

fn pages_of(document: &Option<Index<'_>>) -> usize
    ensures pages { result ≡ pages_in document.now }
    ensures few { result ≤ 1000000 }
{
    match document {
        None => 0,
        Some(index) => index.pages(),
    }
}

// The pages of those of the first jobs that share the cache of a job.
fn pages_sharing(documents: &[Option<Index<'_>>], caches: &[usize], first: usize) -> usize
    requires there { length caches.now ≤ length documents.now }
    requires few { length caches.now ≤ MAX_JOBS }
    ensures pages { result ≡ pages_of_sharers documents.now caches.now first (length caches.now) }
    ensures few { result ≤ 1000000 * MAX_JOBS }
{
    let mut pages = 0;
    for k in 0..caches.len() {
        if caches[k] == first {
            pages += pages_of(&documents[k]);
        }
    }
    pages
}

// The cache of the next job, by the caches of those before it.
fn next_cache(documents: &[Option<Index<'_>>], caches: &[usize]) -> usize
    requires there { length caches.now < length documents.now }
    requires few { length documents.now ≤ MAX_JOBS }
    ensures { result ≡ cache_for documents.now caches.now (length caches.now)
        (units_in (document_at documents.now (length caches.now))) }
{
    let next = caches.len();
    let Some(index) = &documents[next] else {
        return next;
    };
    match last_with(documents, &index.units(), next) {
        None => next,
        Some(last) => {
            let first = caches[last];
            if pages_sharing(documents, caches, first) + index.pages() <= MAX_SHARED_PAGES {
                first
            } else {
                next
            }
        }
    }
}

/// The cache of each job, named by its first job. Jobs whose documents have equal units share one,
/// in their order, and begin a new one where they would have more than 1,000,000 pages together.
pub fn share_caches(alloc: Global, documents: &[Option<Index<'_>>]) -> Result<Vec<usize>, NoMemory>
    requires few { length documents.now ≤ MAX_JOBS }
    ensures { IfOk result (λ caches. caches.items ≡ caches_of documents.now) }
{
    let mut caches = Vec::new(alloc);
    for _k in 0..documents.len() {
        let next = next_cache(documents, &caches);
        caches.push(next)?;
    }
    Ok(caches)
}
