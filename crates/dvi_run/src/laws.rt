//! Laws over the definitions, each a clause of a function without a body.
ghost use Rattle.dvi_run.specs.Examples.{DocumentLines, GoodEndsAreSilent, PageLines, ShortLines};
ghost use Rattle.dvi_run.specs.OneWorker.{OneWorkerHasOneHistory, RunsOfOneWorkerAreAlike};
ghost use Rattle.dvi_run.specs.KnownInputs.{RunsHoldOfKnownInputs};
ghost use Rattle.dvi_run.specs.Outside.{change_of};
ghost use Rattle.dvi_run.specs.Reading.{input_change};
ghost use Rattle.dvi_run.specs.Laws.{EachDocumentHasOneRun, EachPageHasItsEop, FaultsEndTheRun, GoodRunsWriteAlike, OneReading, OneRun, PagesAreShared, RunsEndAtTheFirstFault, RunsHavePrefixes, RunsHaveNoFault, RunsOfGoodPages, SamplesAreReadWhole, StoppedRunsWriteAlike};

use outside::{FontSource, Input, Output};
use page_index::laws::documents;

/// A run writes the pages before the first that fails, and no page after it matters.
pub fn texts()
    ensures good { RunsOfGoodPages }
    ensures stopped { RunsEndAtTheFirstFault }
    ensures ended { FaultsEndTheRun }
{}

/// A document has one reading, and over known font files one value for each page, up to the page's
/// end. No bytes are both a document and a file with a fault. However many workers there are,
/// whatever the cache and the schedule, all runs over one document that end well write one text,
/// and so do those that end at a page.
pub fn runs()
    ensures reading { OneReading }
    ensures values { OneRun }
    ensures prefixes { RunsHavePrefixes }
    ensures no_fault { RunsHaveNoFault }
    ensures ends { EachPageHasItsEop }
    ensures good { GoodRunsWriteAlike }
    ensures stopped { StoppedRunsWriteAlike }
{
    documents();
    page_index::laws::pages();
    page_draw::laws::values();
}

/// Two runs by one worker over the same document, for the same settings and known font files, that
/// end well or at a page end alike: at the same page, with one history of the cache's calls, as
/// many loads and one text for their notes. The history is given by the keys that the pages look up
/// and by what each key's font weighs in the library. `F` and `G` are the workers' sources.
pub fn one_worker<F: FontSource, G: FontSource>()
    ensures alike { RunsOfOneWorkerAreAlike F G }
    ensures history { OneWorkerHasOneHistory F }
{
    runs();
    page_draw::laws::values();
    font_decode::laws::weights();
}

/// Where the bytes that an input has left are known, what `run_with` promises of the bytes that
/// reads gave holds of these, and they were read.
pub fn known_inputs<I: Input, F: FontSource, O: Output, N: Output>()
    ensures { RunsHoldOfKnownInputs
        (record { library = F.library; faults = F.faults; loads = F.loads })
        (input_change I.left I.taken I.ended I.faults) (change_of O.written O.faults)
        (change_of N.written N.faults) }
{}

/// Over known font files each document has exactly one list of the values of its pages, so that
/// each run of it is that of the first of them.
pub fn whole_runs()
    ensures { EachDocumentHasOneRun }
{
    documents();
    page_draw::laws::values();
}

/// Pages that workers share, as `run_with` leaves them, are together the numbers from 0 to one less
/// than their count, and each is there once.
pub fn shares()
    ensures { PagesAreShared }
{}

/// A sample is no longer than a document may be, and so it is read whole.
pub fn samples()
    ensures { SamplesAreReadWhole }
{
    sample_maker::laws::samples();
}

/// The line of each ending, written out: pages are counted from 1, and bytes from 0.
pub fn worked_lines()
    ensures none { GoodEndsAreSilent }
    ensures short { ShortLines }
    ensures pages { PageLines }
    ensures documents { DocumentLines }
{}
