//! Pages that are written, what they lack, and how the run ends where one isn't.
ghost use Rattle.std.specs.Prelude.{◌≡◌, ◌<◌, ◌≤◌, ◌+◌, None, Ok};
ghost use Rattle.outside.specs.Counts.{Rose};
ghost use Rattle.page_draw.specs.Lacks.{values_of};
ghost use Rattle.dvi_run.specs.Endings.{ending_at, value_of_ending};
ghost use Rattle.dvi_run.specs.Lines.{lack_lines};
ghost use Rattle.dvi_run.specs.Noted.{TookAfter};
ghost use Rattle.dvi_run.specs.Outside.{change_of};
ghost use Rattle.dvi_run.specs.Rounds.{WroteOutcome};
ghost use Rattle.dvi_run.specs.Pressing.{TookBy};
ghost use Rattle.page_index.specs.Limits.{MAX_PAGES};

use crate::ending::Ending;
use crate::note::print_lacks;
use crate::tally::Tally;
use outside::Output;
use page_draw::{Drawn, PageStop};
use page_workers::{PageResult, PageTaker};
use pbm_output::{WriteFault, write_page_gathered};
use raster_page::Page;
use std::alloc::{AllocError as NoMemory, Global};
use vf_expand::Lack;

/// Why a page was not written.
#[derive(Drop)]
pub enum WriteStop {
    /// It was not drawn.
    Draw(PageStop),
    /// The output failed.
    Output,
}

impl From<PageStop> for WriteStop {
    ghost use Rattle.dvi_run.specs.declared.pages.WriteStop.TheVariants.{Draw};

    ghost from_gives = { λ page stop. stop ≡ Draw page };

    fn from(stop: PageStop) -> WriteStop {
        WriteStop::Draw(stop)
    }
}

impl From<NoMemory> for WriteStop {
    ghost use Rattle.page_draw.specs.declared.stop.PageStop.TheVariants as page;
    ghost use Rattle.dvi_run.specs.declared.pages.WriteStop.TheVariants.{Draw};

    ghost from_gives = { λ _ stop. stop ≡ Draw page.NoMemory };

    fn from(_: NoMemory) -> WriteStop {
        WriteStop::Draw(PageStop::NoMemory)
    }
}

impl From<WriteFault> for WriteStop {
    ghost use Rattle.dvi_run.specs.declared.pages.WriteStop.TheVariants.{Output};

    ghost from_gives = { λ _ stop. stop ≡ Output };

    fn from(_: WriteFault) -> WriteStop {
        WriteStop::Output
    }
}

/// Writes the pages of a run, in their order, up to the first that can't be, and notes what each
/// lacks as soon as it is written whole.
#[derive(Drop)]
pub struct Press<'n, N> {
    /// The pages written whole, with their black pixels where they are counted.
    pub tally: Tally,
    /// Whether black pixels are counted.
    pub counted: bool,
    /// Why the page after them wasn't written, where it wasn't.
    pub stopped: Option<WriteStop>,
    /// Where it is printed what the pages lack.
    pub notes: &'n mut N,
}

// How a run ends that doesn't write the page with this number, from 0.
pub(crate) fn ending_of_stop(i: usize, stop: WriteStop) -> Ending
    requires { i < MAX_PAGES }
    ensures { value_of_ending result ≡ ending_at (i + 1) stop }
{
    let page = i + 1;
    match stop {
        WriteStop::Draw(PageStop::Fault { fault, at }) => Ending::Page { page, fault, at },
        WriteStop::Draw(PageStop::SourceFault) => Ending::Source(page),
        WriteStop::Draw(PageStop::NoMemory) => Ending::Memory,
        WriteStop::Output => Ending::Output(page),
    }
}

// Writes a page, and answers how many of its pixels are black, where they are counted.
fn write_one<O: Output>(
    alloc: Global,
    drawn: &Drawn,
    counted: bool,
    out: &mut O,
) -> Result<u64, WriteStop>
    ensures wrote { WroteOutcome counted (O.written out.old) (O.written out.new)
        (Rose (O.faults out.old) (O.faults out.new)) (Ok drawn.now) result }
    ensures output { O.faults out.old ≤ O.faults out.new }
{
    write_page_gathered(alloc, out, &drawn.page)?;
    Ok(if counted { drawn.page.count() } else { 0 })
}

impl<N: Output> Press<'_, N> {
    // Notes what the page lacks that was written last, unless the notes failed before.
    fn note(&mut self, alloc: Global, lacks: &[Lack])
        ensures tally { self.new.tally ≡ record self.old.tally { noted = self.new.tally.noted } }
        ensures counted { self.new.counted ≡ self.old.counted }
        ensures goes_on { self.new.stopped ≡ self.old.stopped }
        ensures same_notes { self.new.notes.ghost_name ≡ self.old.notes.ghost_name }
        ensures notes { N.faults self.old.notes.now ≤ N.faults self.new.notes.now }
        ensures noted { TookAfter self.old.tally.noted self.new.tally.noted
            (change_of N.written N.faults self.old.notes.now self.new.notes.now)
            (lack_lines self.old.tally.pages (values_of lacks.now)) }
    {
        if self.tally.noted && !lacks.is_empty() {
            let printed = print_lacks(alloc, self.notes, self.tally.pages, lacks);
            self.tally.noted = printed.is_ok();
        }
    }

    // Writes a page, and where it was written whole counts it, and notes what it lacks.
    fn write<O: Output>(&mut self, alloc: Global, drawn: &Drawn, out: &mut O)
        requires goes_on { self.old.stopped ≡ None }
        ensures counted { self.new.counted ≡ self.old.counted }
        ensures output { O.faults out.old ≤ O.faults out.new }
        ensures same_notes { self.new.notes.ghost_name ≡ self.old.notes.ghost_name }
        ensures notes { N.faults self.old.notes.now ≤ N.faults self.new.notes.now }
        ensures wrote { TookBy self.old.counted (O.written out.old) (O.written out.new)
            (out.new ≡ out.old) (Rose (O.faults out.old) (O.faults out.new))
            (change_of N.written N.faults self.old.notes.now self.new.notes.now) (Ok drawn.now)
            self.old.tally self.new.tally None self.new.stopped }
    {
        match write_one(alloc, drawn, self.counted, out) {
            Ok(black) => {
                self.tally.pages = self.tally.pages.saturating_add(1);
                self.tally.black = self.tally.black.saturating_add(black);
                self.note(alloc, drawn.lacks.as_slice());
            }
            Err(stop) => self.stopped = Some(stop),
        }
    }
}

impl<O: Output, N: Output> PageTaker<O> for Press<'_, N> {
    ghost use Rattle.dvi_run.specs.Pressing.{TookPage};

    ghost takes = { λ p o r q n. TookPage O.written O.faults N.written N.faults p o r q n };

    fn take(&mut self, alloc: Global, out: &mut O, drawn: PageResult) -> Option<Page> {
        if self.stopped.is_some() {
            return drawn.outcome.ok().map(|whole| whole.page);
        }
        match drawn.outcome {
            Ok(whole) => {
                self.write(alloc, &whole, out);
                Some(whole.page)
            }
            Err(stop) => {
                self.stopped = Some(WriteStop::from(stop));
                None
            }
        }
    }
}
