//! What a run prints in its notes, as one text.
ghost use Rattle.std.specs.Prelude.{◌≡◌, ◌≤◌, is_ok, length, true};
ghost use Rattle.std.specs.List.{sum_by};
ghost use Rattle.cache_core.specs.Views.{calls_of};
ghost use Rattle.run_report.specs.Puts.{Puts};
ghost use Rattle.run_report.specs.Summary.{summary_text};
ghost use Rattle.run_report.specs.Trace.{trace_text};
ghost use Rattle.dvi_run.specs.Endings.{IsPrinted, value_of_ending, status_of, with_notes};
ghost use Rattle.dvi_run.specs.Lines.{line_of};
ghost use Rattle.dvi_run.specs.Noted.{TookAfter, is_noted};
ghost use Rattle.dvi_run.specs.Outside.{change_of};
ghost use Rattle.dvi_run.specs.Report.{counts_of, if_asked, report_text, trace_and_summary};
ghost use Rattle.page_workers.specs.Limits.{MAX_WORKERS};

use crate::ending::Ending;
use crate::note::put_end;
use crate::tally::Tally;
use cache_core::Entry;
use command_line::Settings;
use outside::{Failed, FontSource, Gather, Output};
use page_workers::Worker;
use run_report::{Counts, put_summary, put_trace};
use std::alloc::Global;

/// How many loads were asked of the sources of these workers, all of them together.
pub fn loads_asked<F: FontSource>(workers: &[Worker<F>]) -> u128
    requires few { length workers.now ≤ MAX_WORKERS }
    ensures { result ≡ sum_by (λ w. w.loads) workers.now }
{
    let mut loads: u128 = 0;
    for worker in workers {
        loads += u128::from(worker.loads);
    }
    loads
}

// Puts the trace, if it is asked for.
fn put_lines<N: Output>(gather: &mut Gather, notes: &mut N, asked: bool, history: &[Entry])
    ensures { Puts gather.old gather.new (N.written notes.old) (N.written notes.new)
        (N.faults notes.old) (N.faults notes.new)
        (if_asked asked (trace_text (calls_of history.now))) }
{
    if asked {
        put_trace(gather, notes, history);
    }
}

// Puts the summary, if it is asked for.
fn put_counts<N: Output>(
    gather: &mut Gather,
    notes: &mut N,
    asked: bool,
    tally: &Tally,
    loads: u128,
    history: &[Entry],
)
    ensures { Puts gather.old gather.new (N.written notes.old) (N.written notes.new)
        (N.faults notes.old) (N.faults notes.new)
        (if_asked asked (summary_text (counts_of tally.now loads) (calls_of history.now))) }
{
    if asked {
        let counts = Counts {
            pages: tally.pages as u64,
            loads,
            black: tally.black,
        };
        put_summary(gather, notes, &counts, history);
    }
}

// Puts the trace and the summary, as far as they are asked for.
fn put_trace_and_summary<N: Output>(
    gather: &mut Gather,
    notes: &mut N,
    settings: &Settings,
    tally: &Tally,
    loads: u128,
    history: &[Entry],
)
    ensures { Puts gather.old gather.new (N.written notes.old) (N.written notes.new)
        (N.faults notes.old) (N.faults notes.new)
        (trace_and_summary settings.now tally.now loads (calls_of history.now)) }
{
    put_lines(gather, notes, settings.trace, history);
    put_counts(gather, notes, settings.summary, tally, loads, history);
}

// Whether the notes took all that was printed to them while the pages were written.
fn may_print(tally: &Option<Tally>) -> bool
    ensures { result ≡ is_noted tally.now }
{
    match tally {
        None => true,
        Some(tally) => tally.noted,
    }
}

// Puts the whole report of a run that ends.
fn put_report<N: Output>(
    gather: &mut Gather,
    notes: &mut N,
    settings: &Settings,
    tally: &Option<Tally>,
    loads: u128,
    history: &[Entry],
    ending: &Ending,
)
    ensures { Puts gather.old gather.new (N.written notes.old) (N.written notes.new)
        (N.faults notes.old) (N.faults notes.new)
        (report_text settings.now tally.now loads (calls_of history.now)
        (value_of_ending ending.now)) }
{
    match tally {
        None => put_end(gather, notes, ending),
        Some(tally) => {
            put_trace_and_summary(gather, notes, settings, tally, loads, history);
            put_end(gather, notes, ending);
        }
    }
}

/// Prints the report of a run that ends: the trace and the summary, as far as they are asked for
/// and a cache was made, and the line of its end. Where the notes failed before, at what the pages
/// lack, nothing more is written to them.
pub fn print<N: Output>(
    alloc: Global,
    notes: &mut N,
    settings: &Settings,
    tally: &Option<Tally>,
    loads: u128,
    history: &[Entry],
    ending: &Ending,
) -> Result<(), Failed>
    ensures printed { TookAfter (is_noted tally.now) (is_ok result)
        (change_of N.written N.faults notes.old notes.new)
        (report_text settings.now tally.now loads (calls_of history.now)
        (value_of_ending ending.now)) }
    ensures count { N.faults notes.old ≤ N.faults notes.new }
{
    if !may_print(tally) {
        return Err(Failed);
    }
    let mut gather = Gather::new(alloc);
    put_report(&mut gather, notes, settings, tally, loads, history, ending);
    gather.finish(notes)
}

/// Prints the line of a run that ends before anything was read, and that line alone. Answers its
/// status.
pub fn print_line<N: Output>(alloc: Global, notes: &mut N, ending: &Ending) -> u8
    ensures status { result ≡ status_of (with_notes (value_of_ending ending.now) true) }
    ensures printed { IsPrinted (N.written notes.old) (N.written notes.new) (N.faults notes.old)
        (N.faults notes.new) (line_of (value_of_ending ending.now)) }
{
    let mut gather = Gather::new(alloc);
    put_end(&mut gather, notes, ending);
    let _ = gather.finish(notes);
    ending.status(true)
}
