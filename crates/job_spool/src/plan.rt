//! What all jobs of a run have in common.

use command_line::Settings;
use page_index::Index;

/// What all jobs of a run have in common: the settings of each, their documents, and which of them
/// share a cache, which is named by its first job.
#[derive(Clone, Copy)]
pub struct Plan<'a> {
    pub settings: &'a Settings,
    pub documents: &'a [Option<Index<'a>>],
    pub caches: &'a [usize],
}
