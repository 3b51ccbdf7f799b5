//! Runs of the sample, which the run makes itself, and draws over workers of its own.
ghost use Rattle.std.specs.Prelude.{◌≡◌, ◌≤◌, ◌<◌, ℕ, Option, [], ◌∷◌, None, Some, IfOk, IfSome, length, slice_index_or};
ghost use Rattle.outside.specs.Counts.{Rose};
ghost use Rattle.outside.specs.Library.{FileTable};
ghost use Rattle.cache_core.specs.Views.{calls_of};
ghost use Rattle.command_line.specs.Settings.{AreSettings};
ghost use Rattle.sample_maker.specs.Sample.{made_files, sample_document};
ghost use Rattle.dvi_run.specs.Reading.{HoldsOfInput, WasRead, input_change, read_since};
ghost use Rattle.dvi_run.specs.Pages.{setup_with};
ghost use Rattle.dvi_run.specs.Endings.{IsEnding, value_of_ending, status_of};
ghost use Rattle.dvi_run.specs.Sampled.{FailedForSettings, UsesTheSample, document_for_settings, setup_for_settings};
ghost use Rattle.dvi_run.specs.Noted.{WrotePages};
ghost use Rattle.dvi_run.specs.Outside.{change_of, task_for_sample};
ghost use Rattle.dvi_run.specs.Together.{WorkersAreDone, PagesMatchHistory, IsReadyWorker, IsUnread, SomeUsed, SourceRose};

use crate::ending::Ending;
use crate::host::Host;
use crate::own_workers::{move_results, own_workers};
use crate::stages::{draw_document, draw_input};
use crate::tally::Tally;
use cache_core::Entry;
use command_line::Settings;
use outside::{FontSource, Input, Output};
use page_index::laws::documents;
use page_workers::Worker;
use sample_maker::laws::samples;
use sample_maker::{Sample, packed_sample, sample};
use std::alloc::{AllocError as NoMemory, Global};
use std::sync::Wait;
use std::thread::Threads;

// The sample of n pages, with packed fonts or with those that the sample has.
fn made_sample(alloc: Global, pages: u32, packed: bool) -> Result<Sample, NoMemory>
    requires some { 1 ≤ pages }
    requires few { pages ≤ 1000 }
    ensures document { IfOk result (λ s. s.document.items ≡ sample_document pages) }
    ensures library { IfOk result (λ s. s.library ≡ made_files packed) }
{
    if packed {
        packed_sample(alloc, pages)
    } else {
        sample(alloc, pages)
    }
}

// Draws and writes the sample of n pages by as many workers of its own as the settings say, notes
// what its pages lack, and answers how that ended. The worker in the place of each is handed what
// it drew.
fn draw_sample<R: Threads + Wait + Sync, F: FontSource + Send, O: Output, N: Output>(
    host: &Host<R>,
    settings: &Settings,
    pages: u32,
    workers: &mut [Worker<F>],
    out: &mut O,
    notes: &mut N,
    history: &mut Vec<Entry>,
) -> (Ending, Option<Tally>)
    ghost known: { Option FileTable }
    requires settings { AreSettings settings.now }
    requires some { 1 ≤ pages }
    requires few { pages ≤ 1000 }
    requires there { settings.now.workers ≤ length workers.old }
    requires ready { (k : ℕ) (d : _) → k < settings.now.workers
        → IsReadyWorker F.library known (slice_index_or workers.old k d) }
    requires empty { history.old.items ≡ [] }
    ensures ends { IsEnding (O.written out.old) (O.written out.new)
        (Rose (O.faults out.old) (O.faults out.new))
        ⊥ (out.new ≡ out.old) ⊥ (setup_with (Some (made_files settings.now.packed)) settings.now)
        (Some (sample_document pages)) (value_of_ending result.0) }
    ensures done { WorkersAreDone (task_for_sample (Some pages) known settings.now) (record {
      sources = record { library = F.library; faults = F.faults; loads = F.loads };
      output = change_of O.written O.faults out.old out.new;
      before = workers.old;
      after = workers.new;
      history = calls_of history.new.items;
    })
        (value_of_ending result.0) result.1 }
    ensures drew { WrotePages (change_of N.written N.faults notes.old notes.new)
        settings.now.sheet.tolerant result.1 (λ whole. HoldsOfInput (Some (sample_document pages))
        (PagesMatchHistory (task_for_sample (Some pages) known settings.now) (record {
          sources = record { library = F.library; faults = F.faults; loads = F.loads };
          output = change_of O.written O.faults out.old out.new;
          before = workers.old;
          after = workers.new;
          history = calls_of history.new.items;
        })
        (status_of (value_of_ending result.0)) (value_of_ending result.0) result.1 whole)) }
    ensures sample { UsesTheSample (status_of (value_of_ending result.0)) (Unit {0})
        workers.old workers.new }
    ensures output { O.faults out.old ≤ O.faults out.new }
{
    // For the proof: a sample is a document, which has no fault, and fits the limit of one.
    samples();
    documents();
    let Ok(Sample { document, library }) = made_sample(host.alloc, pages, settings.packed) else {
        return (Ending::Memory, None);
    };
    let Ok(mut made) = own_workers(host.alloc, library, settings.workers) else {
        return (Ending::Memory, None);
    };
    let own = made.as_mut_slice();
    let drawn = draw_document(host, settings, &document, own, out, notes, history);
    move_results(own, workers);
    drawn
}

/// Draws and writes the sample, where the settings ask for it, and else what is read, notes what
/// the pages lack, and answers how that ended.
pub fn draw_asked<R: Threads + Wait + Sync, I: Input, F: FontSource + Send, O: Output, N: Output>(
    host: &Host<R>,
    settings: &Settings,
    input: &mut I,
    workers: &mut [Worker<F>],
    out: &mut O,
    notes: &mut N,
    history: &mut Vec<Entry>,
) -> (Ending, Option<Tally>)
    ghost known: { Option FileTable }
    requires settings { AreSettings settings.now }
    requires there { settings.now.workers ≤ length workers.old }
    requires ready { (k : ℕ) (d : _) → k < settings.now.workers
        → IsReadyWorker F.library known (slice_index_or workers.old k d) }
    requires empty { history.old.items ≡ [] }
    ensures ends { IsEnding (O.written out.old) (O.written out.new)
        (Rose (O.faults out.old) (O.faults out.new))
        (FailedForSettings settings.now
        (SomeUsed settings.now.workers workers.old workers.new (SourceRose F.faults)))
        (out.new ≡ out.old) (FailedForSettings settings.now (Rose (I.faults input.old)
        (I.faults input.new))) (setup_for_settings known settings.now)
        (document_for_settings settings.now (read_since (I.taken input.old) (I.taken input.new)))
        (value_of_ending result.0) }
    ensures done { WorkersAreDone (record { settings = settings.now; known = known }) (record {
      sources = record { library = F.library; faults = F.faults; loads = F.loads };
      output = change_of O.written O.faults out.old out.new;
      before = workers.old;
      after = workers.new;
      history = calls_of history.new.items;
    })
        (value_of_ending result.0) result.1 }
    ensures drew { WrotePages (change_of N.written N.faults notes.old notes.new)
        settings.now.sheet.tolerant result.1 (λ whole. HoldsOfInput
        (document_for_settings settings.now (read_since (I.taken input.old) (I.taken input.new)))
        (PagesMatchHistory (record { settings = settings.now; known = known }) (record {
          sources = record { library = F.library; faults = F.faults; loads = F.loads };
          output = change_of O.written O.faults out.old out.new;
          before = workers.old;
          after = workers.new;
          history = calls_of history.new.items;
        })
        (status_of (value_of_ending result.0)) (value_of_ending result.0) result.1 whole)) }
    ensures read { settings.now.sample ≡ None → WasRead
        (input_change I.left I.taken I.ended I.faults input.old input.new) (IsUnread (record {
          sources = record { library = F.library; faults = F.faults; loads = F.loads };
          output = change_of O.written O.faults out.old out.new;
          before = workers.old;
          after = workers.new;
          history = calls_of history.new.items;
        })
        (status_of (value_of_ending result.0)) result.1) }
    ensures sample { IfSome settings.now.sample (λ pages.
        UsesTheSample (status_of (value_of_ending result.0)) (input.new ≡ input.old) workers.old
        workers.new) }
    ensures input { I.faults input.old ≤ I.faults input.new }
    ensures output { O.faults out.old ≤ O.faults out.new }
{
    match settings.sample {
        None => draw_input(host, settings, input, workers, out, notes, history),
        Some(pages) => draw_sample(host, settings, pages, workers, out, notes, history),
    }
}
