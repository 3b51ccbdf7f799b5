//! A writer with a log of what its writes took.
ghost use Rattle.std.specs.Prelude.{◌≡◌, ◌≤◌, [], length, IfOk};
ghost use Rattle.std.specs.Io.KnownBytes.{WriteAppends};
ghost use Rattle.real_streams.specs.Logged.{Logs};

use crate::log::{Log, Piece};
use outside::Failed;
use std::io::{ErrorKind, Write};

/// A writer, and all that it took.
#[derive(Drop)]
pub struct LoggedWriter<W> {
    pub writer: W,
    pub log: Log,
}

impl<W> LoggedWriter<W> {
    /// No write has been made yet.
    pub fn new(writer: W) -> LoggedWriter<W>
        ensures writer { result.writer ≡ writer }
        ensures log { result.log.bytes ≡ [] }
    {
        LoggedWriter {
            writer,
            log: Log::new(),
        }
    }
}

impl<W: Write> LoggedWriter<W> {
    /// Writes some prefix of `bytes`, at least one, and answers how many. A writer that takes none
    /// has failed.
    pub fn write(&mut self, bytes: &[u8]) -> Result<usize, Failed>
        ensures bound { IfOk result (λ n. (1 ≤ n) × (n ≤ length bytes.now)) }
        ensures bytes { WriteAppends (W.contents self.old.writer) (W.contents self.new.writer)
            result bytes.now }
        ensures logged { Logs self.old.log.bytes self.new.log.bytes result bytes.now }
    {
        let n = write_again(&mut self.writer, bytes)?;
        self.log = Log::with(&self.log, &Piece { bytes: &bytes[..n] });
        Ok(n)
    }
}

// One write, made again where it was interrupted. It fails where no byte is taken.
fn write_again<W: Write>(writer: &mut W, bytes: &[u8]) -> Result<usize, Failed>
    ensures bound { IfOk result (λ n. (1 ≤ n) × (n ≤ length bytes.now)) }
    ensures bytes { WriteAppends (W.contents writer.old) (W.contents writer.new) result bytes.now }
{
    for _ in 0..u64::MAX {
        match writer.write(bytes) {
            Ok(0) => return Err(Failed),
            Ok(n) => return Ok(n),
            Err(error) if error.kind() == ErrorKind::Interrupted => {}
            Err(_) => return Err(Failed),
        }
    }
    Err(Failed)
}
