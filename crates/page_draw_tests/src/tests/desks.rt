//! One page over both desks.
ghost use Rattle.page_draw.specs.Sheets.{IsDrawable};

use super::Told;
use super::files::{document, fonts};
use cache_core::{Act, Entry};
use outside::MemFonts;
use page_draw::{Drawn, PageStop, PlainDesk, Sheet, SoloDesk, draw};
use page_index::Index;
use std::alloc::Global;
use std::sync::Wait;
use std::test::Fail;
use vf_expand::PageFault;

static SHEET: Sheet = Sheet {
    width: 16,
    height: 2,
    left: 0,
    top: 1,
    tolerant: false,
};

static TOLERANT: Sheet = Sheet {
    width: 16,
    height: 2,
    left: 0,
    top: 1,
    tolerant: true,
};

// How a page ended: why and where it stopped, with the number that the fault names; or how many
// lacks it has, with the place of the first.
fn end_of(drawn: &Result<Drawn, PageStop>) -> (&'static str, i32, usize) {
    match drawn {
        Ok(drawn) => match drawn.lacks.first() {
            None => ("drawn", 0, 0),
            Some(lack) => (
                "lacks",
                i32::try_from(drawn.lacks.len()).unwrap_or(-1),
                lack.at,
            ),
        },
        Err(PageStop::Fault { fault, at }) => match fault {
            PageFault::NoFont(number) => ("no font", *number, *at),
            PageFault::NoCharacter(_, code) => ("no character", *code, *at),
            PageFault::NoGlyph(_, code) => ("no glyph", *code, *at),
            _ => ("another fault", 0, *at),
        },
        Err(PageStop::SourceFault) => ("source failed", 0, 0),
        Err(PageStop::NoMemory) => ("no memory", 0, 0),
    }
}

// The bytes of all rows, one after another, as one number, or 0 where there is no page.
fn dots_of(drawn: &Result<Drawn, PageStop>) -> u64 {
    let mut dots = 0u64;
    if let Ok(drawn) = drawn {
        for y in 0..drawn.page.height() {
            for byte in drawn.page.row(y) {
                dots = dots.wrapping_mul(256) | u64::from(*byte);
            }
        }
    }
    dots
}

// A letter for each of the first five calls, with the first one of its key's name.
fn letters_of(calls: &[Entry]) -> [u8; 10] {
    let mut letters = [b' '; 10];
    for (at, call) in calls.iter().enumerate() {
        if at < 5 {
            letters[2 * at] = match &call.act {
                Act::Hit => b'h',
                Act::Claimed => b'c',
                Act::Busy => b'b',
                Act::Filled(fill) if fill.gone.keys().is_empty() => b'f',
                Act::Filled(_) => b'g',
                Act::Released => b'r',
            };
            letters[2 * at + 1] = call.key.name.bytes().first().copied().unwrap_or(b'?');
        }
    }
    letters
}

fn loads_of(source: &MemFonts) -> usize {
    match source.asked() {
        Some(names) => names.len(),
        None => 0,
    }
}

fn told_of(drawn: &Result<Drawn, PageStop>, source: &MemFonts, calls: &[Entry]) -> Told {
    let (end, number, at) = end_of(drawn);
    (
        end,
        number,
        at,
        dots_of(drawn),
        loads_of(source),
        letters_of(calls),
        calls.len(),
    )
}

// What the first page comes to over the desk without a cache.
fn over_plain<R: Wait>(rt: &R, alloc: Global, index: &Index, sheet: &Sheet) -> Result<Told, Fail>
    requires sheet { IsDrawable sheet.now }
{
    if index.pages() == 0 {
        return Err(Fail::from("no page"));
    }
    let mut desk = PlainDesk::new(fonts(alloc, &[])?, index.units());
    let drawn = draw(rt, alloc, &mut desk, &(), index, 0, sheet);
    Ok(told_of(&drawn, &desk.finish(), &[]))
}

// What it comes to over the desk with a cache of one font, where these loads fail.
fn over_solo<R: Wait>(rt: &R, alloc: Global, index: &Index, fails: &[u64]) -> Result<Told, Fail> {
    if index.pages() == 0 {
        return Err(Fail::from("no page"));
    }
    let mut desk = SoloDesk::new(alloc, fonts(alloc, fails)?, index.units(), 1, 2_147_483_648)?;
    let drawn = draw(rt, alloc, &mut desk, &(), index, 0, &SHEET);
    let (source, calls) = desk.finish();
    Ok(told_of(&drawn, &source, &calls))
}

/// What a page with these commands comes to, over the desk without a cache, or over the one with a
/// cache of one font where these loads fail; on a tolerant sheet over the first.
pub fn told<R: Wait>(
    rt: &R,
    alloc: Global,
    page: &[u8],
    cached: Option<&[u64]>,
    tolerant: bool,
) -> Result<Told, Fail> {
    let bytes = document(alloc, page)?;
    let Ok(index) = Index::read(alloc, &bytes, 300) else {
        return Err(Fail::from("no document"));
    };
    match (cached, tolerant) {
        (None, true) => over_plain(rt, alloc, &index, &TOLERANT),
        (None, false) => over_plain(rt, alloc, &index, &SHEET),
        (Some(fails), _) => over_solo(rt, alloc, &index, fails),
    }
}
