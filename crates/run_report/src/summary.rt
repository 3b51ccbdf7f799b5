//! The summary: nine lines of counts.
ghost use Rattle.std.specs.Prelude.{◌++◌, codes};
ghost use Rattle.cache_core.specs.Views.{calls_of};
ghost use Rattle.run_report.specs.Puts.{Puts};
ghost use Rattle.run_report.specs.Summary.{calls_text, summary_text};

use crate::counts::Counts;
use crate::puts::{put, put_number};
use crate::tally::tally_of;
use cache_core::Entry;
use itoa::Integer;
use outside::{Gather, Output};

// Puts a name and a number.
fn put_line<N: Output, I: Integer>(gather: &mut Gather, notes: &mut N, name: &[u8], number: I)
    ensures { Puts gather.old gather.new (N.written notes.old) (N.written notes.new)
        (N.faults notes.old) (N.faults notes.new)
        (name.now ++ codes " " ++ I.text number ++ codes "\n") }
{
    put(gather, notes, name);
    put(gather, notes, b" ");
    put_number(gather, notes, number);
    put(gather, notes, b"\n");
}

// Puts how many calls of the font cache are of which kind.
fn put_calls<N: Output>(gather: &mut Gather, notes: &mut N, history: &[Entry])
    ensures { Puts gather.old gather.new (N.written notes.old) (N.written notes.new)
        (N.faults notes.old) (N.faults notes.new) (calls_text (calls_of history.now)) }
{
    let tally = tally_of(history);
    put_line(gather, notes, b"looks", tally.looks);
    put_line(gather, notes, b"hits", tally.hits);
    put_line(gather, notes, b"claims", tally.claims);
    put_line(gather, notes, b"busy", tally.busy);
    put_line(gather, notes, b"evictions", tally.evictions);
    put_line(gather, notes, b"releases", tally.releases);
}

/// Puts the summary: what the run counted, and how many calls of the font cache's history are of
/// which kind, a line each.
pub fn put_summary<N: Output>(
    gather: &mut Gather,
    notes: &mut N,
    counts: &Counts,
    history: &[Entry],
)
    ensures { Puts gather.old gather.new (N.written notes.old) (N.written notes.new)
        (N.faults notes.old) (N.faults notes.new)
        (summary_text counts.now (calls_of history.now)) }
{
    put_line(gather, notes, b"pages", counts.pages);
    put_calls(gather, notes, history);
    put_line(gather, notes, b"loads", counts.loads);
    put_line(gather, notes, b"black", counts.black);
}
