//! A writer as an output.
ghost use Rattle.std.specs.Prelude.{◌≡◌, ◌≤◌, ◌<◌, ℕ, List, Option, [], None, Some, length, IfOk, IsErr, OnErr, OnOk};
ghost use Rattle.std.specs.Io.KnownBytes.{Appends, WriteAppends};
ghost use Rattle.outside.specs.Counts.{HasCause, next_count};
ghost use Rattle.real_streams.specs.Used.{unused_writer};

use crate::log::Log;
use crate::logged_writer::LoggedWriter;
use outside::{Failed, Output};
use std::io::Write;
use std::marker::{Brand, PhantomData};

/// What a writer held at the start, where that is known. A proof picks it.
pub trait Start: Drop {
    ghost held: { Option (List ℕ) };
}

impl Start for Brand {
    ghost held = { None };
}

/// A writer as an output. The bytes that its writes took are known of every writer, and where the
/// writer knows what it holds, that is what it held at the start and then these bytes. A write that
/// fails or takes no byte is counted, and one that is interrupted is made again.
#[derive(Drop)]
pub struct ToWriter<B: Start, W: Write> {
    to: LoggedWriter<W>,
    faults: u64,
    of: PhantomData<B>,
    ghost tied: { ∥ Appends B.held (W.contents to.writer) to.log.bytes ∥₁ },
}

impl<B: Start, W: Write> ToWriter<B, W> {
    /// No write has been made yet.
    pub fn new(writer: W) -> ToWriter<B, W>
        requires { B.held ≡ W.contents writer }
        ensures writer { result.to.writer ≡ writer }
        ensures taken { result.to.log.bytes ≡ [] }
        ensures faults { result.faults ≡ 0 }
    {
        ToWriter {
            to: LoggedWriter::new(writer),
            faults: 0,
            of: PhantomData,
        }
    }

    /// The writer, which holds what it held at the start and then all that was written.
    pub fn into_writer(self) -> W
        ensures { Appends B.held (W.contents result) self.to.log.bytes }
    {
        self.to.writer
    }

    /// The writer with what its writes took and how often one failed. It holds what it held at the
    /// start and then what they took.
    pub fn into_used(self) -> UsedWriter<W>
        ensures log { result.log.bytes ≡ self.to.log.bytes }
        ensures faults { result.faults ≡ self.faults }
        ensures tied { Appends B.held (W.contents result.writer) result.log.bytes }
        ensures untouched { self.to.log.bytes ≡ [] → self.faults ≡ 0
            → result ≡ unused_writer self.to.writer }
    {
        UsedWriter {
            writer: self.to.writer,
            log: self.to.log,
            faults: self.faults,
        }
    }
}

/// A writer that was an output. The bytes that its writes took, and how often one failed, are for
/// proofs alone.
#[derive(Drop)]
pub struct UsedWriter<W> {
    pub writer: W,
    log: Log,
    faults: u64,
}

impl<W> UsedWriter<W> {
    /// No write has been made.
    pub fn new(writer: W) -> UsedWriter<W>
        ensures { result ≡ unused_writer writer }
    {
        UsedWriter {
            writer,
            log: Log::new(),
            faults: 0,
        }
    }
}

impl<B: Start, W: Write + Drop> Output for ToWriter<B, W> {
    ghost written = { λ s. Some s.to.log.bytes };

    ghost faults = { λ s. s.faults };

    fn write(&mut self, bytes: &[u8]) -> Result<usize, Failed>
        requires { 0 < length bytes.now }
        ensures bound { IfOk result (λ n. (1 ≤ n) × (n ≤ length bytes.now)) }
        ensures bytes { WriteAppends (Some self.old.to.log.bytes) (Some self.new.to.log.bytes)
            result bytes.now }
        ensures cause { HasCause self.old.faults self.new.faults (IsErr result) }

        // Each failure counts once.
        ensures faulty { OnErr result (self.new.faults ≡ next_count self.old.faults) }
        ensures good { OnOk result (self.new.faults ≡ self.old.faults) }
    {
        let result = self.to.write(bytes);
        if result.is_err() {
            self.faults = self.faults.saturating_add(1);
        }
        result
    }
}
