//! The run.
ghost use Rattle.std.specs.Prelude.{◌≡◌, ◌≤◌, ◌<◌, ℕ, Option, None, [], length, map, slice_index_or, string_bytes};
ghost use Rattle.outside.specs.Library.{FileTable};
ghost use Rattle.cache_core.specs.Views.{calls_of};
ghost use Rattle.command_line.specs.Line.{settings_of};
ghost use Rattle.command_line.specs.Settings.{AreSettings};
ghost use Rattle.dvi_run.specs.Reading.{input_change};
ghost use Rattle.dvi_run.specs.Outside.{change_of};
ghost use Rattle.dvi_run.specs.Together.{IsReadyWorker};
ghost use Rattle.dvi_run.specs.Promises.{ForSettings, KeepsPromises, NoCountFalls, WasRefused};
ghost use Rattle.page_workers.specs.Limits.{MAX_WORKERS};

use crate::ending::Ending;
use crate::host::Host;
use crate::laws::runs;
use crate::report::{loads_asked, print, print_line};
use crate::sampled::draw_asked;
use cache_core::Entry;
use command_line::laws::given_settings;
use command_line::{LineStop, Settings, line};
use outside::{FontSource, Input, Output};
use page_workers::Worker;
use std::alloc::Global;
use std::sync::Wait;
use std::thread::Threads;

/// Reads a DVI document from `input`, draws its pages by `workers`, each with the fonts of its
/// source, and writes them to `out` in the order of the file, each as a PBM bitmap, as soon as it
/// and all before it are whole. `settings` give the resolution, the sheet, how many workers are
/// used (the first ones), how many fonts their cache keeps, and what is printed to `notes` besides
/// the line of the end. The answer is an exit status; with each but 0 and 8 a line is printed to
/// `notes`, which is the last one.
///
/// The input is read to its end, or to one byte more than a document may have (67,108,864 bytes);
/// it may fail (6). Bytes that aren't a document have a first fault, which the line names with its
/// position (2). Then the pages are drawn in rounds, of one page where one worker is used and else
/// of 32. A page is written while others of its round are drawn, and a round is begun only where
/// each page before it was written. The first page without a bitmap ends the run, whatever came of
/// the pages after it: with 4 where a font that it uses has a fault, and the line then gives the
/// font's name, size and design size and what is wrong with its files; with 3 where a font isn't
/// defined, no font is current, a character isn't in its font, the page has more than 2^24
/// commands, a command leads the pen too far, restores registers where none are saved or saves them
/// where 1000 are saved already, or the page ends with some saved. The line names the page, counted
/// from 1, and the command's position in the file. A source that fails to load a font ends the run
/// too (5), and so does a failed write (7): the output then took the pages before the one that the
/// line names, whole, and a prefix of that one. In place of any of these the answer may be that
/// memory ran out (9); no page is then written in part.
///
/// A tolerant sheet takes a page with a font whose metrics or glyphs are in no file, or with a
/// character, a glyph or a packet that isn't in its font. Such a character marks nothing, and moves
/// as far as its width, where the font has it. As soon as a page is written whole a line is written
/// to the notes for each fault that it goes past, equal ones once, in their order on the page: the
/// page, the position of the first command with this fault, and the fault. So the lines come in the
/// order of the pages, whatever the workers. No such fault ends the run then, neither with 3 nor
/// with 4. On any other sheet nothing is gone past, and there is no such line.
///
/// At the end the report is written to the notes, piece by piece: with `trace` a line for each call
/// of the cache, in their order; with `summary` nine lines of counts, of the pages written whole,
/// the calls of each kind, the loads asked of the used sources, and the black pixels of the pages
/// written whole; and then the line of the end, which is alone where the run ended before a cache
/// was made. After a failed write to the notes nothing more is written there, and the run goes on.
/// Notes that fail decide only between 0 and 8, where all pages were written: at 0 the notes took
/// all of this, the pages' lines and the report, and at 8 they failed and took a prefix of it.
///
/// `history` is empty when handed in. Afterwards it is the list of the cache's calls, in order,
/// where those of worker k, counted from 1, have the number k. The list stays empty where no page
/// was begun. Any worker may draw any page: its `pages`, counted from 0, are those that it drew, in
/// rising order, and those of all used workers together are the first n, each once. A worker that
/// is used has neither a seat nor results when handed in, and has drawn and loaded nothing.
///
/// With `sample` the run makes the document and its font files itself, as `sample_maker::sample`
/// says, or with `packed` as `sample_maker::packed_sample` does, and draws them over workers of its
/// own, as many as are used: `input` isn't read, and no file is loaded from the sources of
/// `workers`. What its own worker k drew and how often it loaded are handed to worker k of the
/// call. All else is as above, except that the run never ends with 2, 5 or 6.
///
/// Knuth, DVItype, "Device-independent file format" and "Translation to symbolic form"; Netpbm, the
/// raw form of PBM. What is said of the document is said of the bytes that reads of `input` gave,
/// and they are those that it had left, where these are known. Clauses on what was written hold
/// where the contents of the output or the notes are known, and what they say of fonts holds for
/// the files `told`, where the source of each used worker is known to have these. The sample and
/// its files are always known.
pub fn run_with<R: Threads + Wait + Sync, I: Input, F: FontSource + Send, O: Output, N: Output>(
    rt: &R,
    alloc: Global,
    settings: &Settings,
    input: &mut I,
    workers: &mut [Worker<F>],
    out: &mut O,
    notes: &mut N,
    history: &mut Vec<Entry>,
) -> u8
    ghost told: { Option FileTable }
    requires settings { AreSettings settings.now }
    requires there { settings.now.workers ≤ length workers.old }
    requires ready { (k : ℕ) (d : _) → k < settings.now.workers
        → IsReadyWorker F.library told (slice_index_or workers.old k d) }
    requires empty { history.old.items ≡ [] }

    // Why it ended so, what was read, written and noted, what each worker drew and loaded, and the
    // calls of the cache.
    ensures promises { KeepsPromises (record {
      task = record { settings = settings.now; known = told };
      streams = record {
        input = input_change I.left I.taken I.ended I.faults input.old input.new;
        output = change_of O.written O.faults out.old out.new;
        notes = change_of N.written N.faults notes.old notes.new;
      };
      sources = record { library = F.library; faults = F.faults; loads = F.loads };
      before = workers.old;
      after = workers.new;
      history = calls_of history.new.items;
    }) result }

    // No count of faults falls.
    ensures counts { NoCountFalls (record {
      input = input_change I.left I.taken I.ended I.faults input.old input.new;
      output = change_of O.written O.faults out.old out.new;
      notes = change_of N.written N.faults notes.old notes.new;
    }) }
{
    // For the proof: bytes that have a fault are no document, and a document's pages have one value
    // each.
    runs();
    let host = Host { rt, alloc };
    let (ending, tally) = draw_asked(&host, settings, input, workers, out, notes, history);
    let loads = loads_asked(&workers[..settings.workers as usize]);
    let taken = print(
        alloc,
        notes,
        settings,
        &tally,
        loads,
        history.as_slice(),
        &ending,
    )
    .is_ok();
    ending.status(taken)
}

/// What the program does: `run_with` with the settings that `words`, the arguments after the
/// program's name, give where there are n workers, as `line` says. Where they give none, the status
/// is 1 (usage), or 9 where memory runs out: then nothing is read, loaded or written, and the notes
/// have the line alone. Memory may also run out while good arguments are read.
pub fn dvipbm_run<R: Threads + Wait + Sync, I: Input, F: FontSource + Send, O: Output, N: Output>(
    rt: &R,
    alloc: Global,
    words: &[String],
    input: &mut I,
    workers: &mut [Worker<F>],
    out: &mut O,
    notes: &mut N,
    history: &mut Vec<Entry>,
) -> u8
    ghost told: { Option FileTable }
    requires some { 1 ≤ length workers.old }
    requires few { length workers.old ≤ MAX_WORKERS }
    requires ready { (k : ℕ) (d : _) → k < length workers.old
        → IsReadyWorker F.library told (slice_index_or workers.old k d) }
    requires empty { history.old.items ≡ [] }

    // 1: exactly where the words give no settings, unless memory runs out. Nothing was read, loaded
    // or written.
    ensures usage { result ≡ 1
        → settings_of (length workers.old) (map string_bytes words.now) ≡ None }
    ensures refused { settings_of (length workers.old) (map string_bytes words.now) ≡ None
        → WasRefused (record {
          input = input_change I.left I.taken I.ended I.faults input.old input.new;
          output = change_of O.written O.faults out.old out.new;
          notes = change_of N.written N.faults notes.old notes.new;
        })
        (workers.new ≡ workers.old) (history.new ≡ history.old) result }

    // Else what `run_with` promises for the settings that they give.
    ensures promises { ForSettings (settings_of (length workers.old) (map string_bytes words.now))
        (λ s. KeepsPromises (record {
          task = record { settings = s; known = told };
          streams = record {
            input = input_change I.left I.taken I.ended I.faults input.old input.new;
            output = change_of O.written O.faults out.old out.new;
            notes = change_of N.written N.faults notes.old notes.new;
          };
          sources = record { library = F.library; faults = F.faults; loads = F.loads };
          before = workers.old;
          after = workers.new;
          history = calls_of history.new.items;
        }) result) }

    // No count of faults falls.
    ensures counts { NoCountFalls (record {
      input = input_change I.left I.taken I.ended I.faults input.old input.new;
      output = change_of O.written O.faults out.old out.new;
      notes = change_of N.written N.faults notes.old notes.new;
    }) }
{
    // For the proof: settings that words give are within their limits.
    given_settings();
    match line(alloc, words, workers.len()) {
        Ok(settings) => run_with(rt, alloc, &settings, input, workers, out, notes, history),
        Err(LineStop::Usage) => print_line(alloc, notes, &Ending::Usage),
        Err(LineStop::NoMemory) => print_line(alloc, notes, &Ending::Memory),
    }
}
