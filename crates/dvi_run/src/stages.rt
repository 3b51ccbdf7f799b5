//! The stages of a run: the input is read, the pages are found, and the workers draw them.
ghost use Rattle.std.specs.Prelude.{◌≡◌, ◌≤◌, ◌<◌, ℕ, Option, None, [], length, slice_index_or};
ghost use Rattle.outside.specs.Counts.{Rose};
ghost use Rattle.outside.specs.Library.{FileTable};
ghost use Rattle.cache_core.specs.Views.{calls_of};
ghost use Rattle.command_line.specs.Settings.{AreSettings};
ghost use Rattle.dvi_run.specs.Reading.{HoldsOfInput, WasRead, input_change, read_since};
ghost use Rattle.dvi_run.specs.Pages.{setup_with};
ghost use Rattle.dvi_run.specs.Endings.{EndsBytes, IsEnding, value_of_ending, status_of};
ghost use Rattle.dvi_run.specs.Noted.{WrotePages};
ghost use Rattle.dvi_run.specs.Outside.{change_of, task_for_sample};
ghost use Rattle.dvi_run.specs.Together.{WorkersAreDone, DrewDocument, PagesMatchHistory, IsReadyWorker, IsUnread, RestIsKept, SomeUsed, SourceRose};

use crate::ending::Ending;
use crate::host::Host;
use crate::opening::{bench_with, open_cache};
use crate::reading::{ReadStop, read_all};
use crate::shared_cache::draw_with_shared_cache;
use crate::tally::Tally;
use cache_core::Entry;
use cache_core::laws::solo;
use command_line::Settings;
use outside::{FontSource, Input, Output};
use page_index::{Index, IndexStop};
use page_workers::Worker;
use std::sync::Wait;
use std::thread::Threads;
use turn_lock::laws::own_calls;

// Draws and writes the pages of a document by the first workers, as many as the settings say, notes
// what the pages lack, and answers how that ended.
fn draw_pages<R: Threads + Wait + Sync, F: FontSource + Send, O: Output, N: Output>(
    host: &Host<R>,
    settings: &Settings,
    index: &Index,
    workers: &mut [Worker<F>],
    out: &mut O,
    notes: &mut N,
    history: &mut Vec<Entry>,
) -> (Ending, Option<Tally>)
    ghost known: { Option FileTable }
    requires settings { AreSettings settings.now }
    requires there { settings.now.workers ≤ length workers.old }
    requires ready { (k : ℕ) (d : _) → k < settings.now.workers
        → IsReadyWorker F.library known (slice_index_or workers.old k d) }
    requires empty { history.old.items ≡ [] }
    requires resolution { index.now.res ≡ settings.now.res }
    ensures drew { DrewDocument (task_for_sample None known settings.now) index.now.reading
        (record {
          sources = record { library = F.library; faults = F.faults; loads = F.loads };
          output = change_of O.written O.faults out.old out.new;
          before = workers.old;
          after = workers.new;
          history = calls_of history.new.items;
        })
        (change_of N.written N.faults notes.old notes.new) (value_of_ending result.0) result.1 }
    ensures rest { RestIsKept settings.now.workers workers.old workers.new }
    ensures output { O.faults out.old ≤ O.faults out.new }
{
    let units = index.units();
    let opened = open_cache(host.alloc, settings.cache as usize, settings.room, &units);
    let opening = bench_with(opened, units);
    let (ending, tally, calls) = draw_with_shared_cache(
        host,
        settings,
        index,
        &mut workers[..settings.workers as usize],
        opening,
        out,
        notes,
    );
    *history = calls;
    (ending, tally)
}

/// Draws and writes the document of these bytes, notes what its pages lack, and answers how that
/// ended.
pub fn draw_document<R: Threads + Wait + Sync, F: FontSource + Send, O: Output, N: Output>(
    host: &Host<R>,
    settings: &Settings,
    bytes: &[u8],
    workers: &mut [Worker<F>],
    out: &mut O,
    notes: &mut N,
    history: &mut Vec<Entry>,
) -> (Ending, Option<Tally>)
    ghost known: { Option FileTable }
    requires settings { AreSettings settings.now }
    requires there { settings.now.workers ≤ length workers.old }
    requires ready { (k : ℕ) (d : _) → k < settings.now.workers
        → IsReadyWorker F.library known (slice_index_or workers.old k d) }
    requires empty { history.old.items ≡ [] }
    ensures ends { EndsBytes (O.written out.old) (O.written out.new)
        (Rose (O.faults out.old) (O.faults out.new))
        (SomeUsed settings.now.workers workers.old workers.new (SourceRose F.faults))
        (out.new ≡ out.old)
        (setup_with known settings.now) bytes.now (value_of_ending result.0) }
    ensures done { WorkersAreDone (task_for_sample None known settings.now) (record {
      sources = record { library = F.library; faults = F.faults; loads = F.loads };
      output = change_of O.written O.faults out.old out.new;
      before = workers.old;
      after = workers.new;
      history = calls_of history.new.items;
    })
        (value_of_ending result.0) result.1 }
    ensures drew { WrotePages (change_of N.written N.faults notes.old notes.new)
        settings.now.sheet.tolerant result.1 (λ whole. PagesMatchHistory
        (task_for_sample None known settings.now) (record {
          sources = record { library = F.library; faults = F.faults; loads = F.loads };
          output = change_of O.written O.faults out.old out.new;
          before = workers.old;
          after = workers.new;
          history = calls_of history.new.items;
        })
        (status_of (value_of_ending result.0)) (value_of_ending result.0) result.1 whole
        bytes.now) }
    ensures output { O.faults out.old ≤ O.faults out.new }
{
    // For the proof: where one worker is used its calls are the history, and the keys that it asked
    // for determine them.
    own_calls();
    solo();
    match Index::read(host.alloc, bytes, settings.res) {
        Ok(index) => draw_pages(host, settings, &index, workers, out, notes, history),
        Err(IndexStop::Fault(fault)) => (Ending::Document(fault), None),
        Err(IndexStop::NoMemory) => (Ending::Memory, None),
    }
}

/// Reads, draws, writes and notes, and answers how that ended.
pub fn draw_input<R: Threads + Wait + Sync, I: Input, F: FontSource + Send, O: Output, N: Output>(
    host: &Host<R>,
    settings: &Settings,
    input: &mut I,
    workers: &mut [Worker<F>],
    out: &mut O,
    notes: &mut N,
    history: &mut Vec<Entry>,
) -> (Ending, Option<Tally>)
    ghost known: { Option FileTable }
    requires settings { AreSettings settings.now }
    requires there { settings.now.workers ≤ length workers.old }
    requires ready { (k : ℕ) (d : _) → k < settings.now.workers
        → IsReadyWorker F.library known (slice_index_or workers.old k d) }
    requires empty { history.old.items ≡ [] }
    ensures ends { IsEnding (O.written out.old) (O.written out.new)
        (Rose (O.faults out.old) (O.faults out.new))
        (SomeUsed settings.now.workers workers.old workers.new (SourceRose F.faults))
        (out.new ≡ out.old)
        (Rose (I.faults input.old) (I.faults input.new)) (setup_with known settings.now)
        (read_since (I.taken input.old) (I.taken input.new)) (value_of_ending result.0) }
    ensures done { WorkersAreDone (task_for_sample None known settings.now) (record {
      sources = record { library = F.library; faults = F.faults; loads = F.loads };
      output = change_of O.written O.faults out.old out.new;
      before = workers.old;
      after = workers.new;
      history = calls_of history.new.items;
    })
        (value_of_ending result.0) result.1 }
    ensures drew { WrotePages (change_of N.written N.faults notes.old notes.new)
        settings.now.sheet.tolerant result.1 (λ whole. HoldsOfInput
        (read_since (I.taken input.old) (I.taken input.new))
        (PagesMatchHistory (task_for_sample None known settings.now) (record {
          sources = record { library = F.library; faults = F.faults; loads = F.loads };
          output = change_of O.written O.faults out.old out.new;
          before = workers.old;
          after = workers.new;
          history = calls_of history.new.items;
        })
        (status_of (value_of_ending result.0)) (value_of_ending result.0) result.1 whole)) }
    ensures read { WasRead (input_change I.left I.taken I.ended I.faults input.old input.new)
        (IsUnread (record {
          sources = record { library = F.library; faults = F.faults; loads = F.loads };
          output = change_of O.written O.faults out.old out.new;
          before = workers.old;
          after = workers.new;
          history = calls_of history.new.items;
        })
        (status_of (value_of_ending result.0)) result.1) }
    ensures input { I.faults input.old ≤ I.faults input.new }
    ensures output { O.faults out.old ≤ O.faults out.new }
{
    match read_all(host.alloc, input) {
        Ok(bytes) => {
            let bytes = bytes.as_slice();
            draw_document(host, settings, bytes, workers, out, notes, history)
        }
        Err(ReadStop::Failed) => (Ending::Input, None),
        Err(ReadStop::NoMemory) => (Ending::Memory, None),
    }
}
