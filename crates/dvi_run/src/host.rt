//! What a run has of the program that makes it.

use std::alloc::Global;

/// What a run has of the program that makes it, besides its streams and its workers: the handle by
/// which it starts threads and waits for them, and memory.
#[derive(Clone, Copy, Drop)]
pub struct Host<'r, R> {
    pub rt: &'r R,
    pub alloc: Global,
}
