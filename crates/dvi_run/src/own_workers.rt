//! The run's own workers, and what they hand to those of the call.
ghost use Rattle.std.specs.Prelude.{◌≡◌, ℕ, ◌<◌, ◌≤◌, [], Some, IfOk, length, slice_index_or};
ghost use Rattle.dvi_run.specs.Sampled.{TookResults};
ghost use Rattle.dvi_run.specs.Together.{IsReadyWorker, RestIsKept};

use outside::{FontSource, Library, SureFonts};
use page_workers::Worker;
use std::alloc::{AllocError as NoMemory, Global};
use std::mem;
use std::sync::Arc;

/// n workers over a library, of which no load fails.
pub fn own_workers(
    alloc: Global,
    library: Library,
    count: u32,
) -> Result<Vec<Worker<SureFonts>>, NoMemory>
    ensures count { IfOk result (λ workers. length workers.items ≡ count) }
    ensures ready { IfOk result (λ workers. (k : ℕ) (d : _) → k < count
        → IsReadyWorker (λ s. Some s.library.value) (Some library)
        (slice_index_or workers.items k d)) }
{
    let library = Arc::new(alloc, library)?;
    let mut workers = Vec::new(alloc);
    for _k in 0..count {
        let source = SureFonts::new(Arc::try_clone(&library)?);
        let worker = Worker::new(alloc, source);
        workers.push(worker)?;
    }
    Ok(workers)
}

// Hands what a worker drew, and how often it loaded, to another that wasn't used. Where that is
// nothing the other stays as it was.
fn move_results_of<G: FontSource, F: FontSource>(own: &mut Worker<G>, worker: &mut Worker<F>)
    requires unused { worker.old.pages.items ≡ [] }
    ensures { TookResults own.old worker.old worker.new }
{
    worker.loads = own.loads;
    if !own.pages.is_empty() {
        mem::swap(&mut worker.pages, &mut own.pages);
    }
}

/// Hands what some workers drew, and how often each loaded, to the first of others that weren't
/// used.
pub fn move_results<G: FontSource, F: FontSource>(own: &mut [Worker<G>], workers: &mut [Worker<F>])
    requires there { length own.old ≤ length workers.old }
    requires unused { (k : ℕ) (d : _) → k < length own.old
        → (slice_index_or workers.old k d).pages.items ≡ [] }
    ensures handed { (k : ℕ) (e : _) (d : _) → k < length own.old
        → TookResults (slice_index_or own.old k e) (slice_index_or workers.old k d)
        (slice_index_or workers.new k d) }
    ensures rest { RestIsKept (length own.old) workers.old workers.new }
{
    for k in 0..own.len() {
        let worker = &mut workers[k];
        move_results_of(&mut own[k], worker);
    }
}
