//! What the workers of a run draw, and the pages of a round of theirs.
ghost use Rattle.std.specs.Prelude.{◌≡◌, ◌≤◌, Some};
ghost use Rattle.std.specs.Coded.{Coded-set, coded_option};
ghost use Rattle.cache_core.specs.Codes.{units_code};
ghost use Rattle.page_index.specs.Pages.{document_units};
ghost use Rattle.page_draw.specs.Sheets.{IsDrawable};

use crate::Bench;
use page_draw::Sheet;
use page_index::Index;

/// What all pages of a run are drawn from: the bench that the workers share, the index of the
/// document, whose units are those of the bench, and a sheet within its limits.
#[derive(Clone, Copy)]
pub struct Job<'a> {
    pub bench: &'a Bench,
    pub index: &'a Index<'a>,
    pub sheet: &'a Sheet,
    pub ghost units: { document_units index.now.res index.now.reading
        ≡ Some bench.now.units } by { Coded-set (coded_option units_code)
            (document_units index.now.res index.now.reading) (Some bench.now.units) },
    pub ghost drawable: { IsDrawable sheet.now },
}

/// Pages that follow one another: `count` of them, from 1 to 32, from `first` on, which is counted
/// from 0.
#[derive(Clone, Copy)]
pub struct PageRange {
    pub first: usize,
    pub count: usize,
    pub ghost some_page: { 1 ≤ count },
    pub ghost few_pages: { count ≤ 32 },
}
