//! How a run ends.

mod status;

use page_index::DocFault;
use vf_expand::PageFault;

/// How a run ends. Pages are counted from 1.
#[derive(Drop)]
pub enum Ending {
    /// All pages were written.
    Written,
    /// The arguments aren't a command line.
    Usage,
    /// The bytes that were read aren't a document.
    Document(DocFault),
    /// The page has no bitmap, for this fault, at the command with this position.
    Page {
        page: usize,
        fault: PageFault,
        at: usize,
    },
    /// The source of the fonts failed at this page.
    Source(usize),
    /// The input failed.
    Input,
    /// The output failed at this page.
    Output(usize),
    /// Memory ran out.
    Memory,
}
