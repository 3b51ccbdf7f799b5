//! Draws the flat commands of a page.
ghost use Rattle.std.specs.Prelude.{◌≡◌, ◌≤◌, ◌<ℤ◌, ◌≤ℤ◌, ◌+ℤ◌, ◌-ℤ◌, ◌++◌, neg_ℤ, pos};
ghost use Rattle.std.specs.Prelude.{List, None, Some, IfOk, IfErr, IfSome, IsErrOf, OnOk};
ghost use Rattle.std.specs.Option.{option_map};
ghost use Rattle.outside.specs.declared.keys.FontKey.{FontKey};
ghost use Rattle.drift_rules.specs.Position.{value_of_flat};
ghost use Rattle.drift_rules.specs.Bounds.{IsInReach, IsNumber, IsPaintable, IsPlaceable};
ghost use Rattle.raster_page.specs.Ink.{Inked, page_of};
ghost use Rattle.vf_expand.specs.Expansion.{asks_left, rest_of};
ghost use Rattle.vf_expand.specs.Steps.{StepFits, Steps};
ghost use Rattle.packed_rows.specs.declared.offset.TheConstants.{MAX_COORDINATE};
ghost use Rattle.page_draw.specs.Inking.{Inks, Moves, step_of, set_in};
ghost use Rattle.page_draw.specs.Lacks.{values_of};
ghost use Rattle.page_draw.specs.Sheets.{IsDrawable, inks_of};
ghost use Rattle.page_draw.specs.DrawnUpTo.{Continues, HasFewerAtLook, StopsWith};
ghost use Rattle.page_draw.specs.Drawn.{IsPenStop};
ghost use Rattle.raster_page.specs.Limits.{MAX_PAGE_SIDE};

use crate::lacks::Lacks;
use crate::sheet::Sheet;
use crate::stop::PageStop;
use drift_rules::{Flat, Mark, Pen, PenStop};
use glyph_paint::paint;
use pk_runs::Glyph;
use raster_page::Page;
use vf_expand::{Expander, PackedChar, PageFault, Step};

// Where a glyph's upper left pixel stands on the sheet, across or down, whose reference pixel
// stands at this place.
#[inline(always)]
fn top_left(place: i64, offset: i32, margin: u32) -> i64
    requires near { IsPlaceable place }
    requires few { margin ≤ MAX_PAGE_SIDE }
    ensures value { result ≡ place -ℤ offset +ℤ pos margin }
    ensures low { neg_ℤ (pos MAX_COORDINATE) ≤ℤ result }
    ensures high { result <ℤ pos MAX_COORDINATE }
{
    place - i64::from(offset) + i64::from(margin)
}

// Sets a mark on the sheet, that of a character by its glyph.
#[inline(always)]
fn ink(page: &mut Page, sheet: &Sheet, mark: Option<Mark>, glyph: Option<&Glyph>)
    requires sheet { IsDrawable sheet.now }
    requires mark { IfSome mark IsPaintable }
    ensures { (done : List Inked) → page.old ≡ page_of sheet.now.width sheet.now.height done
        → page.new ≡ page_of sheet.now.width sheet.now.height
        (done ++ inks_of sheet.now mark (option_map (λ g. g.now) glyph.entry)) }
{
    match mark {
        Some(Mark::Rule { x, y, w, h }) => {
            page.rule(x + i64::from(sheet.left), y + i64::from(sheet.top), w, h);
        }
        Some(Mark::Char { hh, vv }) => {
            if let Some(glyph) = glyph {
                let column = top_left(hh, glyph.hoff, sheet.left);
                let row = top_left(vv, glyph.voff, sheet.top);
                paint(page, &glyph.raster, column, row);
            }
        }
        None => {}
    }
}

// Draws a flat command that is no character; a character has its glyph with it.
#[inline(always)]
fn draw_one(
    page: &mut Page,
    pen: &mut Pen,
    sheet: &Sheet,
    expander: &Expander,
    flat: &Flat,
) -> Result<(), PageStop>
    requires sheet { IsDrawable sheet.now }
    requires reach { IsInReach (value_of_flat flat.now) }
    ensures moved { IfOk result (λ _. Moves pen.old (value_of_flat flat.now) pen.new) }
    ensures inked { IfOk result (λ _. Inks sheet.now pen.old (value_of_flat flat.now)
        None page.old page.new) }
    ensures conv { pen.new.conv ≡ pen.old.conv }
    ensures stop { IfErr result (IsPenStop (step_of pen.old (value_of_flat flat.now))
        expander.now.at) }
{
    match pen.step(flat) {
        Ok(mark) => {
            ink(page, sheet, mark, None);
            Ok(())
        }
        Err(PenStop::Fault(fault)) => Err(PageStop::Fault {
            fault: PageFault::Pen(fault),
            at: expander.at(),
        }),
        Err(PenStop::NoMemory) => Err(PageStop::NoMemory),
    }
}

// Draws a character that the expander gave with its glyph.
#[inline(always)]
fn draw_packed_char(
    page: &mut Page,
    pen: &mut Pen,
    sheet: &Sheet,
    packed: PackedChar,
) -> Result<(), PageStop>
    requires sheet { IsDrawable sheet.now }
    requires reach { IsNumber packed.width }
    ensures moved { IfOk result (λ _. (key : FontKey) → Moves pen.old (set_in key packed.entry)
        pen.new) }
    ensures inked { IfOk result (λ _. (key : FontKey) → Inks sheet.now pen.old
        (set_in key packed.entry)
        (Some packed.entry.glyph.now) page.old page.new) }
    ensures conv { pen.new.conv ≡ pen.old.conv }
    ensures stop { IfErr result (λ stop. (key : FontKey)
        → IsPenStop (step_of pen.old (set_in key packed.entry)) packed.entry.at stop) }
{
    match pen.character(packed.width, packed.put) {
        Ok(mark) => {
            ink(page, sheet, Some(mark), Some(packed.glyph));
            Ok(())
        }
        Err(fault) => Err(PageStop::Fault {
            fault: PageFault::Pen(fault),
            at: packed.at,
        }),
    }
}

/// Draws the flat commands that come next, and takes the lacks, up to a step of another kind. A
/// page's commands are almost all of them flat ones: this loop is the same for all desks, and what
/// a command passes through is inlined into it.
#[inline(never)]
pub fn draw_flats(
    page: &mut Page,
    pen: &mut Pen,
    sheet: &Sheet,
    expander: &mut Expander,
    lacks: &mut Lacks,
) -> Result<Step, PageStop>
    requires sheet { IsDrawable sheet.now }
    ensures drawn { OnOk result (Continues pen.old.conv sheet.now
        (rest_of expander.old) pen.old.state
        (record { page = page.old; lacks = values_of lacks.old })
        (rest_of expander.new) pen.new.state
        (record { page = page.new; lacks = values_of lacks.new })) }
    ensures conv { OnOk result (pen.new.conv ≡ pen.old.conv) }
    ensures asks { OnOk result (asks_left expander.new ≤ asks_left expander.old) }
    ensures steps { IfOk result (λ step. HasFewerAtLook expander.old step expander.new) }

    // The step that stands next is no flat command and no lack: it leaves the same to do.
    ensures next { IfOk result (λ step. Steps expander.new step expander.new) }
    ensures fits { IfOk result StepFits }
    ensures source { IsErrOf result PageStop.SourceFault → ⊥ }
    ensures stop { IfErr result (StopsWith pen.old.conv sheet.now
        (rest_of expander.old) pen.old.state
        (record { page = page.old; lacks = values_of lacks.old })) }
{
    'flats: loop {
        if let Some(packed) = expander.next_packed_char() {
            draw_packed_char(page, pen, sheet, packed)?;
            continue;
        }
        match expander.next()? {
            Step::Flat(flat) => draw_one(page, pen, sheet, expander, &flat)?,
            Step::Lack(lack) => lacks.add(lack)?,
            other => return Ok(other),
        }
    }
}
