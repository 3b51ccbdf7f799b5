//! What the program does, over any streams and any opener of font files.
ghost use Rattle.std.specs.Prelude.{◌≡◌, ◌<◌, ℕ, Option, List, [], length, map, slice_index_or, string_bytes};
ghost use Rattle.std.specs.Io.KnownBytes.{Appends};
ghost use Rattle.std.specs.Option.{option_map};
ghost use Rattle.outside.specs.Library.{FileTable};
ghost use Rattle.dvi_run.specs.Together.{IsReadyWorker};
ghost use Rattle.real_streams.specs.Files.{cut_files};
ghost use Rattle.real_outside.specs.Program.{DidNotBegin, KeepsProgram, KeepsWords, streams_of};

use crate::workers::workers_by;
use cache_core::Entry;
use dvi_run::dvipbm_run;
use outside::FontSource;
use page_workers::Worker;
use real_streams::{FromReader, OpenedFonts, Opener, Start, ToWriter, UsedWriter};
use std::alloc::Global;
use std::io::{Read, Write};
use std::marker::Brand;
use std::sync::Wait;
use std::thread::Threads;

// The status where memory runs out for the workers.
const NO_MEMORY: u8 = 9;

/// What the program left: its status, its streams, its workers, and the calls of the cache. There
/// are no workers where memory ran out for them.
#[derive(Drop)]
pub struct Outcome<R, W, N, F: FontSource> {
    pub status: u8,
    pub input: FromReader<R>,
    pub out: UsedWriter<W>,
    pub notes: UsedWriter<N>,
    pub workers: Vec<Worker<F>>,
    pub history: Vec<Entry>,
}

/// What the program does with the arguments `words`: `dvipbm_run` over these streams and over 32
/// workers of its own, which load the font files that `opener` opens. The document is what reads of
/// `reader` give. What writes of `out` took are the bitmaps, and what those of `notes` took is the
/// text of the run; each holds what it held before, and then this. Where memory runs out for the
/// workers the status is 9, and nothing is read or written.
pub fn draw_streams<
    H: Threads + Wait + Sync,
    R: Read + Drop,
    W: Write + Drop,
    N: Write + Drop,
    O: Opener + Copy + Send,
>(
    rt: &H,
    alloc: Global,
    words: &[String],
    opener: O,
    reader: R,
    out: W,
    notes: N,
) -> Outcome<R, W, N, OpenedFonts<O>>
where
    O::File: Send,
    // Why it ended so, and what was read, written, noted, drawn and loaded, of what calls of the
    // reader gave and of what calls of the writers took.
    ensures promises { KeepsProgram (map string_bytes words.now)
        (λ o. option_map cut_files (O.files o)) opener
        (streams_of R.remaining reader out notes result) result.workers.items result.history.items
        result.status }

    // Where a writer tells what it holds, it holds besides exactly what was written.
    ensures out { Appends (W.contents out) (W.contents result.out.writer) result.out.log.bytes }
    ensures notes { Appends (N.contents notes) (N.contents result.notes.writer)
        result.notes.log.bytes }
{
    match workers_by(alloc, opener) {
        Ok(workers) => draw_by::<H, Brand, Brand, R, W, N, OpenedFonts<O>>(
            rt, alloc, words, workers, reader, out, notes,
        ),
        Err(_) => not_begun(alloc, reader, out, notes),
    }
}

// No call of a stream was made, since memory ran out for the workers.
fn not_begun<R, W, N, F: FontSource>(
    alloc: Global,
    reader: R,
    out: W,
    notes: N,
) -> Outcome<R, W, N, F>
    ensures promises { (remaining : R → Option (List ℕ))
        → DidNotBegin (streams_of remaining reader out notes result) result.workers.items
        result.history.items result.status }
    ensures out { (result.out.writer ≡ out) × (result.out.log.bytes ≡ []) }
    ensures notes { (result.notes.writer ≡ notes) × (result.notes.log.bytes ≡ []) }
{
    Outcome {
        status: NO_MEMORY,
        input: FromReader::new(reader),
        out: UsedWriter::new(out),
        notes: UsedWriter::new(notes),
        workers: Vec::new(alloc),
        history: Vec::new(alloc),
    }
}

// The run over these workers. What the writers held at its start is `A` and `B`.
fn draw_by<
    H: Threads + Wait + Sync,
    A: Start,
    B: Start,
    R: Read + Drop,
    W: Write + Drop,
    N: Write + Drop,
    F: FontSource + Send,
>(
    rt: &H,
    alloc: Global,
    words: &[String],
    mut workers: Vec<Worker<F>>,
    reader: R,
    out: W,
    notes: N,
) -> Outcome<R, W, N, F>
    ghost told: { Option FileTable }
    requires held { A.held ≡ W.contents out }
    requires noted { B.held ≡ N.contents notes }
    requires count { length workers.items ≡ 32 }
    requires ready { (k : ℕ) (d : _) → k < 32
        → IsReadyWorker F.library told (slice_index_or workers.items k d) }
    ensures promises { KeepsWords (map string_bytes words.now) (record {
      known = told;
      streams = streams_of R.remaining reader out notes result;
      sources = record { library = F.library; faults = F.faults; loads = F.loads };
      before = workers.items;
      after = result.workers.items;
      history = result.history.items;
    }) result.status }
    ensures out { Appends (W.contents out) (W.contents result.out.writer) result.out.log.bytes }
    ensures notes { Appends (N.contents notes) (N.contents result.notes.writer)
        result.notes.log.bytes }
{
    let mut input = FromReader::new(reader);
    let mut out = ToWriter::<A, W>::new(out);
    let mut notes = ToWriter::<B, N>::new(notes);
    let mut history = Vec::new(alloc);
    let status = dvipbm_run(
        rt,
        alloc,
        words,
        &mut input,
        &mut workers,
        &mut out,
        &mut notes,
        &mut history,
    );
    Outcome {
        status,
        input,
        out: out.into_used(),
        notes: notes.into_used(),
        workers,
        history,
    }
}
