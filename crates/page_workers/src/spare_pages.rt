//! Spare pages: pages that were written, whose memory is drawn on again. New memory for a page
//! costs as much as to draw it, since each piece of it is handed out by the system when it is first
//! written.
ghost use Rattle.std.specs.Prelude.{◌≡◌, ℕ, ◌<◌, ◌≤◌, [], IfOk, length, slice_index_or};
ghost use Rattle.page_draw.specs.Sheets.{IsDrawable};
ghost use Rattle.raster_page.specs.Ink.{page_of};
ghost use Rattle.page_workers.specs.SparePages.{HasNoSparePages, MayKeepPage, SameButSparePages, spare_pages_kept};

use crate::worker::Worker;
use outside::FontSource;
use page_draw::Sheet;
use raster_page::Page;
use std::alloc::{AllocError as NoMemory, Global};

// How many spare pages the workers keep together after a round.
const KEPT: usize = 32;

/// A blank page: a spare one of the sheet's sides, cleared, or else a new one. Spare pages of other
/// sides are dropped.
pub fn blank_page(
    alloc: Global,
    spare_pages: &mut Vec<Page>,
    sheet: &Sheet,
) -> Result<Page, NoMemory>
    requires { IsDrawable sheet.now }
    ensures blank { IfOk result (λ page. page ≡ page_of sheet.now.width sheet.now.height []) }
    ensures fewer { length spare_pages.new.items ≤ length spare_pages.old.items }
{
    while let Some(mut page) = spare_pages.pop() {
        if page.width() == sheet.width && page.height() == sheet.height {
            page.clear();
            return Ok(page);
        }
    }
    Page::blank(alloc, sheet.width, sheet.height)
}

impl<F: FontSource> Worker<F> {
    /// Keeps a page that was written as a spare one. Where there is no memory to note it, it is
    /// dropped.
    pub fn give_back(&mut self, page: Page)
        ensures same { SameButSparePages self.old self.new }
        ensures kept { MayKeepPage page self.old self.new }
    {
        let _kept = self.spare_pages.push(page);
    }

    // Drops the spare pages beyond n.
    fn keep_spare_pages(&mut self, most: usize)
        ensures same { SameButSparePages self.old self.new }
        ensures most { length self.new.spare_pages.items ≤ most }
    {
        self.spare_pages.truncate(most);
    }

    // Drops the spare pages.
    fn drop_spare_pages(&mut self)
        ensures same { SameButSparePages self.old self.new }
        ensures none { HasNoSparePages self.new }
    {
        self.spare_pages.clear();
    }
}

// How many spare pages each worker keeps after a round.
fn share_kept<F: FontSource>(workers: &[Worker<F>]) -> usize
    requires { 1 ≤ length workers.now }
    ensures { result ≡ spare_pages_kept (length workers.now) }
{
    KEPT / workers.len()
}

/// Drops the spare pages that a worker has beyond its share of 32.
pub(crate) fn trim_spare_pages<F: FontSource>(workers: &mut [Worker<F>])
    requires { 1 ≤ length workers.old }
    ensures same { (k : ℕ) (d : _) → k < length workers.old
        → SameButSparePages (slice_index_or workers.old k d) (slice_index_or workers.new k d) }
    ensures kept { (k : ℕ) (d : _) → k < length workers.old
        → length (slice_index_or workers.new k d).spare_pages.items
        ≤ spare_pages_kept (length workers.old) }
{
    let most = share_kept(workers);
    for k in 0..workers.len() {
        workers[k].keep_spare_pages(most);
    }
}

/// Drops the spare pages of all workers.
pub fn drop_spare_pages<F: FontSource>(workers: &mut [Worker<F>])
    ensures same { (k : ℕ) (d : _) → k < length workers.old
        → SameButSparePages (slice_index_or workers.old k d) (slice_index_or workers.new k d) }
    ensures none { (k : ℕ) (d : _) → k < length workers.old
        → HasNoSparePages (slice_index_or workers.new k d) }
{
    for k in 0..workers.len() {
        workers[k].drop_spare_pages();
    }
}
