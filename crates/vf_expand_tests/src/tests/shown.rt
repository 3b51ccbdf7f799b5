//! What the steps of a page show.
ghost use Rattle.std.specs.Prelude.{◌<◌};
ghost use Rattle.outside.specs.FontKeys.{IsFontKey};
ghost use Rattle.page_index.specs.Document.{pages_begun};
ghost use Rattle.pixel_round.specs.Preamble.{AreUnits};

use super::files::{document, library};
use drift_rules::Flat;
use font_decode::{Decoded, FileKind, FontFault, decode, fetch};
use outside::{FontKey, Library, SureFonts};
use page_index::Index;
use pixel_round::Units;
use std::alloc::Global;
use std::sync::Arc;
use std::test::Fail;
use vf_expand::{Expander, PageFault, Step};

/// A font: its name, its size and its design size.
#[derive(Clone, Copy, Debug, PartialEq, Eq)]
pub struct Named(pub &'static str, pub u32, pub u32);

/// What a step shows: the position of the page's command that it comes from, what the step is, its
/// font, and its numbers.
///
/// A character that is set or put has its code, its width, and the sides of its glyph; a rule its
/// height and its width; a motion, which is named by its register, how far it goes and a sixth of
/// the font's size; one by what the register holds that sixth alone; and a lack, which isn't the
/// last step, or a stop the number that it names.
#[derive(Clone, Copy, Debug, PartialEq, Eq)]
pub struct Shown(pub usize, pub &'static str, pub Named, pub [i64; 4]);

/// The font of a step that has none.
pub const NO_FONT: Named = Named("", 0, 0);

/// The numbers of a step that has none.
pub const NOTHING: [i64; 4] = [0; 4];

static NAMES: [&str; 31] = [
    "dot", "bar", "thin", "gap", "duo", "twin", "over", "loop", "box", "bare", "nest", "far",
    "miss", "lost", "none", "hole", "flat", "flats", "gaps", "holes", "bad", "a", "b", "c", "d",
    "e", "f", "g", "h", "i", "j",
];

fn font_named(key: &FontKey) -> Named {
    for name in NAMES.iter() {
        if name.as_bytes() == key.name.bytes() {
            return Named(*name, key.size, key.design);
        }
    }
    Named("another font", key.size, key.design)
}

// The sides of a character's glyph in the font that the page holds for it.
fn sides(font: Option<&Arc<Decoded>>, code: u8) -> (i64, i64) {
    let Some(font) = font else { return (0, 0) };
    let Decoded::Font(font) = &**font else {
        return (0, 0)
    };
    match font.glyph(u32::from(code)) {
        Some(glyph) => (
            i64::from(glyph.raster.width()),
            i64::from(glyph.raster.height()),
        ),
        None => (0, 0),
    }
}

// What a flat command shows: what it is, its font, and its numbers. The page holds a font beside a
// character alone.
fn flat_shown(flat: &Flat, font: Option<&Arc<Decoded>>) -> (&'static str, Named, [i64; 4]) {
    let (what, numbers) = match flat {
        Flat::Char {
            key,
            code,
            width,
            put,
        } => {
            let (columns, rows) = sides(font, *code);
            let numbers = [i64::from(*code), *width, columns, rows];
            return (if *put { "put" } else { "set" }, font_named(key), numbers);
        }
        Flat::Rule { height, width, put } => {
            let what = if *put { "put rule" } else { "rule" };
            (what, [*height, *width, 0, 0])
        }
        Flat::Right { by, space } => ("right", [*by, *space, 0, 0]),
        Flat::W { by, space } => ("w", [*by, *space, 0, 0]),
        Flat::X { by, space } => ("x", [*by, *space, 0, 0]),
        Flat::Down { by, space } => ("down", [*by, *space, 0, 0]),
        Flat::Y { by, space } => ("y", [*by, *space, 0, 0]),
        Flat::Z { by, space } => ("z", [*by, *space, 0, 0]),
        Flat::W0 { space } => ("w again", [*space, 0, 0, 0]),
        Flat::X0 { space } => ("x again", [*space, 0, 0, 0]),
        Flat::Y0 { space } => ("y again", [*space, 0, 0, 0]),
        Flat::Z0 { space } => ("z again", [*space, 0, 0, 0]),
        Flat::Skip => ("skip", NOTHING),
        Flat::Push => ("push", NOTHING),
        Flat::Pop => ("pop", NOTHING),
        Flat::Enter => ("enter", NOTHING),
        Flat::Leave => ("leave", NOTHING),
        Flat::Advance { width } => ("advance", [*width, 0, 0, 0]),
    };
    if font.is_some() {
        return ("a font beside another step", NO_FONT, numbers);
    }
    (what, NO_FONT, numbers)
}

// What a fault shows: what it is, the font that it names, and the number.
fn fault_shown(fault: &PageFault) -> (&'static str, Named, [i64; 4]) {
    let (what, font, number) = match fault {
        PageFault::NoFont(number) => ("no font", NO_FONT, *number),
        PageFault::NoCurrentFont => ("no current font", NO_FONT, 0),
        PageFault::NoCharacter(key, code) => ("no character", font_named(key), *code),
        PageFault::NoGlyph(key, code) => ("no glyph", font_named(key), *code),
        PageFault::NoPacket(key, code) => ("no packet", font_named(key), *code),
        PageFault::NoLocalFont(key, None) => ("no local fonts", font_named(key), 0),
        PageFault::NoLocalFont(key, Some(number)) => ("no local font", font_named(key), *number),
        PageFault::Depth(key, code) => ("depth", font_named(key), *code),
        PageFault::TooLong => ("too long", NO_FONT, 0),
        PageFault::Font(key, FontFault::Missing(FileKind::Tfm)) => (
            "missing tfm",
            font_named(key),
            0,
        ),
        PageFault::Font(key, FontFault::Missing(FileKind::Pk)) => (
            "missing pk",
            font_named(key),
            0,
        ),
        PageFault::Font(key, _) => ("another fault", font_named(key), 0),
        PageFault::Pen(_) => ("a fault of the pen", NO_FONT, 0),
    };
    (what, font, [i64::from(number), 0, 0, 0])
}

// What a step shows.
fn step_shown(expander: &Expander, step: &Step) -> Shown {
    let (what, font, numbers) = match step {
        Step::Flat(flat) => flat_shown(flat, expander.font()),
        Step::Ask(key) => ("ask", font_named(key), NOTHING),
        Step::Lack(lack) => fault_shown(&lack.fault),
        Step::End => ("end", NO_FONT, NOTHING),
        Step::Stop(fault) => fault_shown(fault),
    };
    Shown(expander.at(), what, font, numbers)
}

// What is found for a key in a library.
fn found(
    alloc: Global,
    library: &Arc<Library>,
    key: &FontKey,
    units: &Units,
) -> Result<Arc<Decoded>, Fail>
    requires key { IsFontKey key.now }
    requires units { AreUnits units.now }
{
    let mut source = SureFonts::new(Arc::try_clone(library)?);
    let files = fetch(alloc, &mut source, key, units)?;
    Ok(Arc::new(alloc, decode(alloc, key, &files, units)?)?)
}

// Whether the last step comes again.
fn comes_again(expander: &mut Expander, steps: &[Shown]) -> Result<bool, Fail> {
    let step = expander.next()?;
    Ok(steps.last() == Some(&step_shown(expander, &step)))
}

// The steps, where the last one comes again.
fn ended(expander: &mut Expander, steps: Vec<Shown>) -> Result<Vec<Shown>, Fail> {
    if comes_again(expander, &steps)? {
        return Ok(steps);
    }
    Err(Fail::from("another step after the last one"))
}

// Each step of a document's first page.
fn walked(
    alloc: Global,
    library: &Arc<Library>,
    index: &Index,
    tolerant: bool,
) -> Result<Vec<Shown>, Fail>
    requires page { 0 < pages_begun index.now.reading }
{
    let units = index.units();
    let mut expander = Expander::new(alloc, index, 0, tolerant)?;
    let mut steps = Vec::new(alloc);
    for _ in 0..100u32 {
        match expander.next()? {
            Step::Flat(flat) => {
                let (what, font, numbers) = flat_shown(&flat, expander.font());
                steps.push(Shown(expander.at(), what, font, numbers))?;
            }
            Step::Ask(key) => {
                steps.push(Shown(expander.at(), "ask", font_named(&key), NOTHING))?;
                expander.answer(found(alloc, library, &key, &units)?);
            }
            Step::Lack(lack) => {
                let (what, font, numbers) = fault_shown(&lack.fault);
                steps.push(Shown(lack.at, what, font, numbers))?;
            }
            Step::End => {
                steps.push(Shown(expander.at(), "end", NO_FONT, NOTHING))?;
                return ended(&mut expander, steps);
            }
            Step::Stop(fault) => {
                let (what, font, numbers) = fault_shown(&fault);
                steps.push(Shown(expander.at(), what, font, numbers))?;
                return ended(&mut expander, steps);
            }
        }
    }
    Err(Fail::from("no end after 100 steps"))
}

/// The steps of a document's page that has this font as its font 0, where lacks are tolerated or
/// aren't.
pub fn steps_of(
    alloc: Global,
    font: &str,
    page: &[u8],
    tolerant: bool,
) -> Result<Vec<Shown>, Fail> {
    let bytes = document(alloc, font, page)?;
    let Ok(index) = Index::read(alloc, &bytes, 300) else {
        return Err(Fail::from("no document"));
    };
    if index.pages() == 0 {
        return Err(Fail::from("no page"));
    }
    walked(alloc, &library(alloc)?, &index, tolerant)
}

/// The same where they aren't tolerated.
pub fn steps(alloc: Global, font: &str, page: &[u8]) -> Result<Vec<Shown>, Fail> {
    steps_of(alloc, font, page, false)
}
