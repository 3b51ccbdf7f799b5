//! A job: the pages of one document, drawn over a bench that other documents share.
ghost use Rattle.std.specs.Prelude.{◌≡◌, ◌<◌, ◌≤◌, ℕ, Option, Some, length, slice_index_or};
ghost use Rattle.outside.specs.Library.{FileTable};
ghost use Rattle.page_index.specs.Document.{pages_begun};
ghost use Rattle.page_index.specs.Pages.{document_units};
ghost use Rattle.page_draw.specs.Sheets.{IsDrawable};
ghost use Rattle.page_workers.specs.Limits.{MAX_WORKERS};
ghost use Rattle.page_workers.specs.Rounds.{MayDraw};
ghost use Rattle.page_workers.specs.Seats.{library_at};
ghost use Rattle.dvi_run.specs.Endings.{EndingValue, status_of};
ghost use Rattle.dvi_run.specs.Jobs.{DrewJob, JobAnswerIsTrue};
ghost use Rattle.dvi_run.specs.Outside.{change_of};
ghost use Rattle.dvi_run.specs.Rounds.{site};

use crate::host::Host;
use crate::rounds::write_rounds;
use crate::silence::Silence;
use outside::{FontSource, Output};
use page_draw::Sheet;
use page_draw::laws::values;
use page_index::Index;
use page_workers::{Bench, Job, Worker};
use std::alloc::Global;
use std::sync::Wait;
use std::thread::Threads;

/// The part of a run between its index and its notes, over a bench that other documents with the
/// same units may share: draws the pages of the document in rounds, and writes them to `out` in the
/// order of the file, as `run_with` does. Each worker has a seat at the bench's cache. It may have
/// drawn pages of other documents before, and keeps its seat for those that come after.
///
/// The answer is 0 where all pages were written. The first page without a bitmap ends the job: with
/// 4 where a font that it uses has a fault, with 5 where the source of the worker that drew it
/// failed, and else with 3. A failed write ends it too (7): the output then took the pages before
/// one of them, whole, and a prefix of that one. In place of any of these the answer may be that
/// memory ran out (9); no page is then written in part.
///
/// The `pages` of the workers grow by the pages drawn, counted from 0, and the calls of their seats
/// by those that answer what these pages looked up. A page is broken off only where its worker's
/// source failed in this call, or for want of memory: never where the answer is 0, and with one
/// worker only where it is 9. Such a page is its worker's last one, and a claim is given up only
/// there.
///
/// On a tolerant sheet a page may lack fonts, characters, glyphs and packets, as in `run_with`; it
/// isn't told here which.
///
/// What is said of fonts holds for the files `known`, which the common part of the seats has, where
/// it has some.
pub fn draw_job<R: Threads + Wait + Sync, F: FontSource + Send, O: Output>(
    rt: &R,
    alloc: Global,
    workers: &mut [Worker<F>],
    bench: &Bench,
    index: &Index,
    sheet: &Sheet,
    out: &mut O,
) -> u8
    ghost known: { Option FileTable }
    requires some_worker { 1 ≤ length workers.old }
    requires few_workers { length workers.old ≤ MAX_WORKERS }
    requires sheet { IsDrawable sheet.now }
    requires units { document_units index.now.res index.now.reading ≡ Some bench.now.units }
    requires ready { (k : ℕ) (d : _) → k < length workers.old
        → MayDraw F.library bench.now (pages_begun index.now.reading)
        (slice_index_or workers.old k d) }
    requires library { (k : ℕ) (d : _) → k < length workers.old
        → library_at (slice_index_or workers.old k d).seat ≡ known }

    // Why it ended so: the causes of each answer, both ways.
    ensures caused { JobAnswerIsTrue (site F.library F.faults F.loads bench.now known index.now
        sheet.now) (change_of O.written O.faults out.old out.new) workers.old workers.new result }

    // What was written, and what each worker drew, looked up and loaded.
    ensures drew { (e : EndingValue) × (result ≡ status_of e)
        × DrewJob (site F.library F.faults F.loads bench.now known index.now sheet.now)
        (change_of O.written O.faults out.old out.new) workers.old workers.new e }

    // The output's count of faults doesn't fall.
    ensures output { O.faults out.old ≤ O.faults out.new }
{
    // For the proof: over known font files each page has one value.
    values();
    // The bench, the index and the sheet are lent again, for as long as the pages are drawn.
    let job = Job {
        bench: &*bench,
        index: &*index,
        sheet: &*sheet,
    };
    let host = Host { rt, alloc };
    let (ending, _) = write_rounds(&host, workers, &job, out, &mut Silence, false);
    ending.status(true)
}
