//! Draws a page.
ghost use Rattle.std.specs.Prelude.{◌≡◌, ◌<◌, ◌≤◌, ◌+◌, ◌^◌, [], ◌∷◌, Some, Ok, Err, IfOk, IfErr, IfSome, IsErrOf, IsOk, OnOk, OnErr};
ghost use Rattle.std.specs.Arc.{arc_value};
ghost use Rattle.outside.specs.Counts.{HasCause};
ghost use Rattle.outside.specs.FontKeys.{IsFontKey};
ghost use Rattle.page_index.specs.Document.{pages_begun};
ghost use Rattle.page_index.specs.Pages.{document_units};
ghost use Rattle.raster_page.specs.Ink.{page_of};
ghost use Rattle.font_decode.specs.Decoding.{IsFontOf};
ghost use Rattle.font_decode.specs.declared.font_or_fault.Decoded.{Decoded};
ghost use Rattle.vf_expand.specs.Expansion.{IsAtLook, after_answer, asks_left, rest_of, steps_left};
ghost use Rattle.vf_expand.specs.Steps.{Steps};
ghost use Rattle.vf_expand.specs.declared.step.Step.TheVariants.{Ask};
ghost use Rattle.page_draw.specs.Sheets.{IsDrawable};
ghost use Rattle.page_draw.specs.Values.{EndsIn, ended_with, value_of_drawn};
ghost use Rattle.font_decode.specs.Desks.{GrewBy, GrewByAtMost, TrailGrew};
ghost use Rattle.page_draw.specs.Drawn.{IsDrawn, IsFaultOf, IsLeft, IsOwnStop, IsStop, IsWhole};
ghost use Rattle.vf_expand.specs.Limits.{MAX_FLAT_COMMANDS};

use crate::drawn::Drawn;
use crate::flats::draw_flats;
use crate::indexed_page::IndexedPage;
use crate::lacks::Lacks;
use crate::sheet::Sheet;
use crate::stop::PageStop;
use drift_rules::Pen;
use font_decode::Desk;
use outside::FontKey;
use page_index::Index;
use raster_page::Page;
use std::alloc::Global;
use std::sync::{Arc, Wait};
use vf_expand::{Expander, PageFault, Step};

// The page at its end, where no registers may be saved.
fn finish_page(drawn: Drawn, pen: &Pen, at: usize) -> Result<Drawn, PageStop>
    ensures whole { IfOk result (λ done. ended_with pen.now.state.saved at (value_of_drawn drawn)
        ≡ Ok (value_of_drawn done)) }
    ensures left { IfErr result (λ stop.
        IsLeft stop (ended_with pen.now.state.saved at (value_of_drawn drawn))) }
{
    match pen.finish() {
        Ok(()) => Ok(drawn),
        Err(fault) => Err(PageStop::Fault {
            fault: PageFault::Pen(fault),
            at,
        }),
    }
}

// The page where nothing of it is left, or the fault at which its commands stop.
fn end_page(drawn: Drawn, pen: &Pen, expander: &Expander, step: Step) -> Result<Drawn, PageStop>
    requires next { Steps expander.now step expander.now }
    requires no_look { (key : _) → step ≡ Ask key → ⊥ }
    ensures whole { IfOk result (λ done. EndsIn pen.now.conv pen.now.state (value_of_drawn drawn)
        (rest_of expander.now) (Ok (value_of_drawn done))) }
    ensures stop { IfErr result (λ stop. IsFaultOf stop
        (EndsIn pen.now.conv pen.now.state (value_of_drawn drawn) (rest_of expander.now))) }
{
    match step {
        Step::End => finish_page(drawn, pen, expander.at()),
        Step::Stop(fault) => Err(PageStop::Fault {
            fault,
            at: expander.at(),
        }),
        Step::Flat(_) => unreachable!(),
        Step::Ask(_) => unreachable!(),
        Step::Lack(_) => unreachable!(),
    }
}

// Hands in the font of the look-up that stands next, for which the desk is asked.
fn look_up<R: Wait, D: Desk>(
    rt: &R,
    alloc: Global,
    desk: &mut D,
    shared: &D::Shared,
    expander: &mut Expander,
    key: &Arc<FontKey>,
) -> Result<(), PageStop>
    requires fits { D.fits desk.old shared.now }
    requires room { 1 ≤ D.room desk.old }
    requires key { IsFontKey (arc_value key.now) }
    requires look { IsAtLook (rest_of expander.old) }
    ensures answered { OnOk result ((font : Decoded)
        × IsFontOf (D.library desk.old) (D.units desk.old) (arc_value key.now) font
        × (rest_of expander.new ≡ after_answer (rest_of expander.old) font)) }
    ensures asks { OnOk result (asks_left expander.new + 1 ≡ asks_left expander.old) }
    ensures fewer { OnOk result (steps_left expander.new < steps_left expander.old) }
    ensures broken { IfErr result (λ stop. IsOwnStop stop → ⊥) }

    // What the desk is afterwards.
    ensures fits { D.fits desk.new shared.now }
    ensures room { D.room desk.old ≤ D.room desk.new + 1 }
    ensures library { D.library desk.new ≡ D.library desk.old }
    ensures units { D.units desk.new ≡ D.units desk.old }
    ensures cause { HasCause (D.faults desk.old) (D.faults desk.new)
        (IsErrOf result PageStop.SourceFault) }
    ensures asked { OnOk result (GrewBy (D.asked desk.old) (D.asked desk.new)
        (arc_value key.now ∷ [])) }
    ensures refused { OnErr result (GrewByAtMost (D.asked desk.old) (D.asked desk.new)
        (arc_value key.now)) }
    ensures trail { TrailGrew (IsOk result) (D.asked desk.old) (D.asked desk.new)
        (D.trail desk.old) (D.trail desk.new) }
{
    let font = desk.font(rt, alloc, shared, key)?;
    expander.answer(font);
    Ok(())
}

/// Draws a page of a document on a blank page that has the sheet's sides, with the fonts of a desk.
/// It is that page, or its fault, that `draw` answers.
///
/// A page's fault is the first of its list: a fault of the page's commands or fonts where it
/// stands, or a command that the pen can't take, or registers that are still saved at the page's
/// end. On a tolerant sheet a missing font, character, glyph or packet is no fault but a lack, and
/// its character marks nothing. `SourceFault` comes only where the desk's source failed in this
/// call, and `NoMemory` where memory ran out.
///
/// Knuth, DVItype, "Translation to symbolic form".
pub fn draw_on<R: Wait, D: Desk>(
    rt: &R,
    alloc: Global,
    desk: &mut D,
    shared: &D::Shared,
    wanted: IndexedPage,
    sheet: &Sheet,
    mut page: Page,
) -> Result<Drawn, PageStop>
    requires page { wanted.number < pages_begun wanted.index.now.reading }
    requires sheet { IsDrawable sheet.now }
    requires fits { D.fits desk.old shared.now }
    requires units { IfSome (D.units desk.old) (λ u.
        document_units wanted.index.now.res wanted.index.now.reading ≡ Some u) }
    requires room { MAX_FLAT_COMMANDS ≤ D.room desk.old }
    requires blank { page ≡ page_of sheet.now.width sheet.now.height [] }

    // What the desk is afterwards.
    ensures fits { D.fits desk.new shared.now }
    ensures room { D.room desk.old ≤ D.room desk.new + MAX_FLAT_COMMANDS }
    ensures library { D.library desk.new ≡ D.library desk.old }
    ensures units { D.units desk.new ≡ D.units desk.old }
    ensures cause { HasCause (D.faults desk.old) (D.faults desk.new)
        (IsErrOf result PageStop.SourceFault) }

    // The bitmap and the lacks, or the first fault, are the page's, and the keys asked for are its
    // look-ups.
    ensures drawn { IfOk result (λ drawn. IsDrawn
        (IsFontOf (D.library desk.old) (D.units desk.old))
        wanted.entry.index.now sheet.now wanted.entry.number
        (Ok (value_of_drawn drawn)) (D.asked desk.old) (D.asked desk.new)) }
    ensures stop { IfErr result (λ stop. IsStop (IsFontOf (D.library desk.old) (D.units desk.old))
        wanted.entry.index.now sheet.now wanted.entry.number
        stop (D.asked desk.old) (D.asked desk.new)) }

    // What the desk's seat did for these keys.
    ensures trail { TrailGrew (IsWhole result) (D.asked desk.old) (D.asked desk.new)
        (D.trail desk.old) (D.trail desk.new) }
{
    let mut pen = Pen::new(alloc, wanted.index.conv());
    let mut expander = Expander::new(alloc, wanted.index, wanted.number, sheet.tolerant)?;
    let mut lacks = Lacks::new(alloc);
    'steps: loop {
        match draw_flats(&mut page, &mut pen, sheet, &mut expander, &mut lacks)? {
            Step::Ask(key) => look_up(rt, alloc, desk, shared, &mut expander, &key)?,
            step => {
                let lacks = lacks.finish();
                return end_page(Drawn { page, lacks }, &pen, &expander, step);
            }
        }
    }
}

/// Draws the page of a document with a number, from 0, on a sheet, with the fonts of a desk.
///
/// A page's fault is the first of its list: a fault of the page's commands or fonts where it
/// stands, or a command that the pen can't take, or registers that are still saved at the page's
/// end. On a tolerant sheet a missing font, character, glyph or packet is no fault but a lack, and
/// its character marks nothing. `SourceFault` comes only where the desk's source failed in this
/// call, and `NoMemory` where memory ran out.
///
/// Knuth, DVItype, "Translation to symbolic form".
pub fn draw<R: Wait, D: Desk>(
    rt: &R,
    alloc: Global,
    desk: &mut D,
    shared: &D::Shared,
    index: &Index,
    i: usize,
    sheet: &Sheet,
) -> Result<Drawn, PageStop>
    requires page { i < pages_begun index.now.reading }
    requires sheet { IsDrawable sheet.now }
    requires fits { D.fits desk.old shared.now }
    requires units { IfSome (D.units desk.old) (λ u. document_units index.now.res index.now.reading
        ≡ Some u) }
    requires room { MAX_FLAT_COMMANDS ≤ D.room desk.old }

    // What the desk is afterwards.
    ensures fits { D.fits desk.new shared.now }
    ensures room { D.room desk.old ≤ D.room desk.new + MAX_FLAT_COMMANDS }
    ensures library { D.library desk.new ≡ D.library desk.old }
    ensures units { D.units desk.new ≡ D.units desk.old }
    ensures cause { HasCause (D.faults desk.old) (D.faults desk.new)
        (IsErrOf result PageStop.SourceFault) }

    // The bitmap and the lacks, or the first fault, are the page's, and the keys asked for are its
    // look-ups.
    ensures drawn { IfOk result (λ drawn. IsDrawn
        (IsFontOf (D.library desk.old) (D.units desk.old)) index.now sheet.now i
        (Ok (value_of_drawn drawn)) (D.asked desk.old) (D.asked desk.new)) }
    ensures stop { IfErr result (λ stop. IsStop (IsFontOf (D.library desk.old) (D.units desk.old))
        index.now sheet.now i
        stop (D.asked desk.old) (D.asked desk.new)) }

    // What the desk's seat did for these keys.
    ensures trail { TrailGrew (IsWhole result) (D.asked desk.old) (D.asked desk.new)
        (D.trail desk.old) (D.trail desk.new) }
{
    // For the proof: a document has units, so where memory runs out its page was broken off before
    // its first command.
    let _conv = index.conv();
    let page = Page::blank(alloc, sheet.width, sheet.height)?;
    let wanted = IndexedPage { index, number: i };
    draw_on(rt, alloc, desk, shared, wanted, sheet, page)
}
