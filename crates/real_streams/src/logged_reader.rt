//! A reader with a log of what its reads gave.
ghost use Rattle.std.specs.Prelude.{◌≡◌, ◌≤◌, ◌↔◌, [], false, length, IfOk, IsTrue, OnErr};
ghost use Rattle.std.specs.Io.KnownBytes.{ReadConsumes};
ghost use Rattle.outside.specs.Streams.{Takes};

use crate::log::{Log, Piece};
use outside::Failed;
use std::io::{ErrorKind, Read};

/// A reader, and all that its reads gave.
#[derive(Drop)]
pub struct LoggedReader<R> {
    pub reader: R,
    pub log: Log,
    /// Whether the last read that didn't fail gave no byte.
    pub is_ended: bool,
}

impl<R> LoggedReader<R> {
    /// No read has been made yet.
    pub fn new(reader: R) -> LoggedReader<R>
        ensures reader { result.reader ≡ reader }
        ensures log { result.log.bytes ≡ [] }
        ensures ended { result.is_ended ≡ false }
    {
        LoggedReader {
            reader,
            log: Log::new(),
            is_ended: false,
        }
    }
}

impl<R: Read> LoggedReader<R> {
    /// Reads some bytes into the beginning of `buf`, and answers how many.
    pub fn read(&mut self, buf: &mut [u8]) -> Result<usize, Failed>
        ensures bound { IfOk result (λ n. n ≤ length buf.new) }
        ensures bytes { ReadConsumes (R.remaining self.old.reader) (R.remaining self.new.reader)
            result buf.new }
        ensures logged { Takes self.old.log.bytes self.new.log.bytes (IsTrue self.new.is_ended)
            result buf.new }
        ensures ended { IfOk result (λ n. IsTrue self.new.is_ended ↔ (n ≡ 0)) }
        ensures failed { OnErr result (self.new.is_ended ≡ self.old.is_ended) }
    {
        let n = read_again(&mut self.reader, buf)?;
        self.log = Log::with(&self.log, &Piece { bytes: &buf[..n] });
        self.is_ended = n == 0;
        Ok(n)
    }
}

// One read, made again where it was interrupted.
fn read_again<R: Read>(reader: &mut R, buf: &mut [u8]) -> Result<usize, Failed>
    ensures bound { IfOk result (λ n. n ≤ length buf.new) }
    ensures bytes { ReadConsumes (R.remaining reader.old) (R.remaining reader.new) result buf.new }
{
    for _ in 0..u64::MAX {
        match reader.read(buf) {
            Ok(n) => return Ok(n),
            Err(error) if error.kind() == ErrorKind::Interrupted => {}
            Err(_) => return Err(Failed),
        }
    }
    Err(Failed)
}
