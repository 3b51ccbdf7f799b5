//! Runs of two workers in which a load or a write is held until others began. Where workers don't
//! overlap it fails, and so the run doesn't end with 0. The text of a run has its status, how many
//! pages of the image that is to come it wrote, the calls of the worker that asked for `dot` and of
//! the one that asked for `bar`, and whether each look for an awaited font stands before the first
//! fill of a font whose load was held.

mod calls;
mod document;
mod jobs;
mod meeting;
mod output;
mod runs;
mod source;

use document::{BAR, DOT, THIN};
use runs::told;
use source::Plan;
use std::test::Fail;

const DOT_TFM: &'static [u8] = b"dot.tfm";

const BAR_TFM: &'static [u8] = b"bar.tfm";

const THIN_TFM: &'static [u8] = b"thin.tfm";

// Two pages of different fonts: each load of a TFM file is held until the other began.
#[test]
fn two_loads_meet(rt: HostRuntime) -> Result<(), Fail> {
    let plan = Plan {
        held: &[DOT_TFM, BAR_TFM],
        awaited: &[DOT_TFM, BAR_TFM],
        output_meets: false,
        by_chance: false,
    };
    let text = told(&rt, rt.alloc(), &[DOT, BAR], plan)?;
    assert_eq!(rt;
        text.as_str(),
        "0, 2 pages, dot: claimed dot, filled dot; bar: claimed bar, filled bar; looked first"
    );
    Ok(())
}

// Two pages of one font: the worker that claims it is held at its load until the other one, which
// finds it busy, loads it for itself.
#[test]
fn busy_loads_itself(rt: HostRuntime) -> Result<(), Fail> {
    let plan = Plan {
        held: &[DOT_TFM],
        awaited: &[DOT_TFM],
        output_meets: false,
        by_chance: false,
    };
    let text = told(&rt, rt.alloc(), &[DOT, DOT], plan)?;
    assert_eq!(rt;
        text.as_str(),
        "0, 2 pages, dot: claimed dot, filled dot; other: busy dot; looked first"
    );
    Ok(())
}

const TAKES_TWO: &'static str = "0, 3 pages, dot: claimed dot, filled dot; \
    bar: claimed bar, filled bar, claimed thin, filled thin; looked first";

// The worker that draws the first page is held at its load until those of the second and of the
// third page began, which the other worker draws.
#[test]
fn one_takes_two(rt: HostRuntime) -> Result<(), Fail> {
    let plan = Plan {
        held: &[DOT_TFM],
        awaited: &[BAR_TFM, THIN_TFM],
        output_meets: false,
        by_chance: false,
    };
    let text = told(&rt, rt.alloc(), &[DOT, BAR, THIN], plan)?;
    assert_eq!(rt; text.as_str(), TAKES_TWO);
    Ok(())
}

// The first write, of the first page, and the load for the second page of the same round: each is
// held until the other began.
#[test]
fn a_page_is_written_while_its_round_is_drawn(rt: HostRuntime) -> Result<(), Fail> {
    let plan = Plan {
        held: &[BAR_TFM],
        awaited: &[BAR_TFM],
        output_meets: true,
        by_chance: true,
    };
    let text = told(&rt, rt.alloc(), &[DOT, BAR], plan)?;
    assert_eq!(rt; text.as_str(), "0, 2 pages");
    Ok(())
}

// 16 pages of one font, and one of another.
static PAGES: [&'static [u8]; 17] = [
    DOT, DOT, DOT, DOT, DOT, DOT, DOT, DOT, DOT, DOT, DOT, DOT, DOT, DOT, DOT, DOT, BAR,
];

// The first write is held until the load for the last page began. So long none of the pages drawn
// is written, and two workers draw 16 of them: with one page more the write is held in vain.
#[test]
fn sixteen_pages_are_in_memory(rt: HostRuntime) -> Result<(), Fail> {
    let plan = Plan {
        held: &[],
        awaited: &[BAR_TFM],
        output_meets: true,
        by_chance: true,
    };
    let sixteen = told(&rt, rt.alloc(), &PAGES[1..], plan)?;
    assert_eq!(rt; sixteen.as_str(), "0, 16 pages");
    let seventeen = told(&rt, rt.alloc(), &PAGES, plan)?;
    assert_eq!(rt; seventeen.as_str(), "7, 0 pages");
    Ok(())
}
