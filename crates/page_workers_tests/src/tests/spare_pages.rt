//! Paper: which of it becomes a blank page.

use super::crew::{SHEET, crew};
use super::source::Plan;
use page_workers::spare_pages::blank_page;
use std::alloc::Global;
use std::test::Fail;

// How many pages a worker keeps that gets black pages of these sides; and of each of four blank
// pages that are made of them its width, its height, how many of its dots are black, and how many
// pages are left after it.
type Blanks = (usize, [u32; 4], [u32; 4], [u64; 4], [usize; 4]);

fn blanks(alloc: Global, sides: &[(u8, u8)]) -> Result<Blanks, Fail> {
    let mut workers = crew(alloc, 1, Plan::Sure, sides)?;
    let mut told = (0, [0; 4], [0; 4], [0; 4], [0; 4]);
    for worker in &mut workers {
        told.0 = worker.spare_pages.len();
        for at in 0..4usize {
            let page = blank_page(alloc, &mut worker.spare_pages, &SHEET)?;
            told.1[at] = page.width();
            told.2[at] = page.height();
            told.3[at] = page.count();
            told.4[at] = worker.spare_pages.len();
        }
    }
    Ok(told)
}

// A sheet of 8 by 2 dots: paper of other sides is dropped.
static BLANKS: [(&'static [(u8, u8)], Blanks); 5] = [
    (&[(8, 2), (8, 2)], (2, [8; 4], [2; 4], [0; 4], [1, 0, 0, 0])),
    (&[(8, 2), (8, 3)], (2, [8; 4], [2; 4], [0; 4], [0, 0, 0, 0])),
    (&[(8, 2), (9, 2)], (2, [8; 4], [2; 4], [0; 4], [0, 0, 0, 0])),
    (&[(8, 2), (2, 8)], (2, [8; 4], [2; 4], [0; 4], [0, 0, 0, 0])),
    (
        &[(8, 2), (2, 8), (8, 3), (9, 2), (8, 2)],
        (5, [8; 4], [2; 4], [0; 4], [4, 0, 0, 0]),
    ),
];

#[test]
fn paper_becomes_blank_pages(rt: HostRuntime) -> Result<(), Fail> {
    for (row, (sides, expected)) in BLANKS.iter().enumerate() {
        assert_eq!(rt; blanks(rt.alloc(), sides)?, *expected, "row {row}");
    }
    Ok(())
}
