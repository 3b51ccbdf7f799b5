//! Pages over a desk with a cache, and over one without.

mod files;

use cache_core::{Act, Entry};
use files::{ONE_CHARACTER, THREE_CHARACTERS, dot_and_bar};
use font_decode::{Decoded, Desk};
use page_draw::{Drawn, PageStop, PlainDesk, Sheet, SoloDesk, draw};
use page_index::Index;
use std::alloc::Global;
use std::sync::Wait;
use std::test::Fail;

static SHEET: Sheet = Sheet {
    width: 16,
    height: 2,
    left: 0,
    top: 1,
    tolerant: false,
};

// The bytes of all rows, one after another, as one number, or 0 where there is no page.
fn dots_of(drawn: &Result<Drawn, PageStop>) -> u64 {
    let mut dots = 0u64;
    if let Ok(drawn) = drawn {
        for y in 0..drawn.page.height() {
            for byte in drawn.page.row(y) {
                dots = dots.wrapping_mul(256) | u64::from(*byte);
            }
        }
    }
    dots
}

// A letter for each call, and another one for a fill for which a font leaves.
fn letters_of(calls: &[Entry]) -> [u8; 4] {
    let mut letters = [b' '; 4];
    for (letter, call) in letters.iter_mut().zip(calls) {
        *letter = match &call.act {
            Act::Hit => b'h',
            Act::Claimed => b'c',
            Act::Busy => b'b',
            Act::Filled(fill) if fill.gone.keys().is_empty() => b'f',
            Act::Filled(_) => b'g',
            Act::Released => b'r',
        };
    }
    letters
}

// The dots of a page with three characters, over a desk with a cache of one font or over
// the plain one.
fn dots_over<R: Wait>(rt: &R, alloc: Global, cached: bool) -> Result<u64, Fail> {
    let Ok(index) = Index::read(alloc, &THREE_CHARACTERS, 300) else {
        return Err(Fail::from("no document"));
    };
    if index.pages() == 0 {
        return Err(Fail::from("no page"));
    }
    let source = dot_and_bar(alloc)?;
    let drawn = if cached {
        let mut desk = SoloDesk::new(alloc, source, index.units(), 1, 2_147_483_648)?;
        draw(rt, alloc, &mut desk, &(), &index, 0, &SHEET)
    } else {
        let mut desk = PlainDesk::new(source, index.units());
        draw(rt, alloc, &mut desk, &(), &index, 0, &SHEET)
    };
    Ok(dots_of(&drawn))
}

#[test]
fn both_desks_draw_one_page(rt: HostRuntime) -> Result<(), Fail> {
    for cached in [false, true] {
        let dots = dots_over(&rt, rt.alloc(), cached)?;
        assert_eq!(rt; dots, 0xccc0_ccc0, "with a cache: {cached}");
    }
    Ok(())
}

// The calls of a desk with a cache of one font where the second font is looked up after the first,
// and whether the first one still has its glyph then.
fn calls_and_glyph<R: Wait>(rt: &R, alloc: Global) -> Result<([u8; 4], usize, bool), Fail> {
    let Ok(index) = Index::read(alloc, &ONE_CHARACTER, 300) else {
        return Err(Fail::from("no document"));
    };
    let (Some(dot), Some(bar)) = (index.font(0), index.font(1)) else {
        return Err(Fail::from("no fonts"));
    };
    let mut desk = SoloDesk::new(alloc, dot_and_bar(alloc)?, index.units(), 1, 2_147_483_648)?;
    let Ok(held) = desk.font(rt, alloc, &(), dot) else {
        return Err(Fail::from("no font"));
    };
    if desk.font(rt, alloc, &(), bar).is_err() {
        return Err(Fail::from("no second font"));
    }
    let (_, calls) = desk.finish();
    let has_glyph = match &*held {
        Decoded::Font(font) => font.glyph(0x41).is_some(),
        Decoded::Bare(_) | Decoded::Fault(_) => false,
    };
    Ok((letters_of(&calls), calls.len(), has_glyph))
}

// A font that another one drove out of the cache is whole in the hands of who looked it up.
#[test]
fn a_font_that_left_the_cache_is_used_on(rt: HostRuntime) -> Result<(), Fail> {
    let (letters, count, has_glyph) = calls_and_glyph(&rt, rt.alloc())?;
    assert_eq!(rt; (letters, count, has_glyph), (*b"cfcg", 4, true));
    Ok(())
}
