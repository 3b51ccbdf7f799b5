//! A reader as an input.
ghost use Rattle.std.specs.Prelude.{◌≡◌, ◌≤◌, ◌<◌, ◌↔◌, [], false, length, IfOk, IsErr, IsTrue, OnErr, OnOk};
ghost use Rattle.std.specs.Io.KnownBytes.{ReadConsumes};
ghost use Rattle.outside.specs.Counts.{HasCause, next_count};
ghost use Rattle.outside.specs.Streams.{Takes};
ghost use Rattle.real_streams.specs.Used.{unused_reader};

use crate::logged_reader::LoggedReader;
use outside::{Failed, Input};
use std::io::Read;

/// A reader as an input. The bytes that its reads gave are known of every reader, and those that
/// are left where the reader knows them. A read that fails is counted, and one that is interrupted
/// is made again.
#[derive(Drop)]
pub struct FromReader<R> {
    from: LoggedReader<R>,
    faults: u64,
}

impl<R> FromReader<R> {
    /// No read has been made yet.
    pub fn new(reader: R) -> FromReader<R>
        ensures reader { result.from.reader ≡ reader }
        ensures taken { result.from.log.bytes ≡ [] }
        ensures ended { result.from.is_ended ≡ false }
        ensures faults { result.faults ≡ 0 }
        ensures unused { result ≡ unused_reader reader }
    {
        FromReader {
            from: LoggedReader::new(reader),
            faults: 0,
        }
    }

    /// The reader.
    pub fn into_reader(self) -> R
        ensures { result ≡ self.from.reader }
    {
        self.from.reader
    }
}

impl<R: Read + Drop> Input for FromReader<R> {
    ghost left = { λ s. R.remaining s.from.reader };

    ghost taken = { λ s. s.from.log.bytes };

    ghost ended = { λ s. IsTrue s.from.is_ended };

    ghost faults = { λ s. s.faults };

    fn read(&mut self, buf: &mut [u8]) -> Result<usize, Failed>
        requires { 0 < length buf.old }
        ensures bound { IfOk result (λ n. n ≤ length buf.new) }
        ensures bytes { ReadConsumes (R.remaining self.old.from.reader)
            (R.remaining self.new.from.reader) result buf.new }
        ensures taken { Takes self.old.from.log.bytes self.new.from.log.bytes
            (IsTrue self.new.from.is_ended) result buf.new }
        ensures cause { HasCause self.old.faults self.new.faults (IsErr result) }

        // Its end was seen exactly where the last read that didn't fail gave no byte.
        ensures ended { IfOk result (λ n. IsTrue self.new.from.is_ended ↔ (n ≡ 0)) }
        ensures failed { OnErr result (self.new.from.is_ended ≡ self.old.from.is_ended) }

        // Each failure counts once.
        ensures faulty { OnErr result (self.new.faults ≡ next_count self.old.faults) }
        ensures good { OnOk result (self.new.faults ≡ self.old.faults) }
    {
        let result = self.from.read(buf);
        if result.is_err() {
            self.faults = self.faults.saturating_add(1);
        }
        result
    }
}
