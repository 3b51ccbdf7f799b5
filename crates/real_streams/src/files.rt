//! Files as inputs and outputs, each opened when it is first read or written.
ghost use Rattle.std.specs.Prelude.{◌≡◌, ◌≤◌, ◌<◌, [], None, Some, length, IfOk, IsErr, OnErr, OnOk};
ghost use Rattle.std.specs.Io.KnownBytes.{ReadConsumes, WriteAppends};
ghost use Rattle.outside.specs.Counts.{HasCause, next_count};
ghost use Rattle.outside.specs.Streams.{Takes};
ghost use Rattle.real_streams.specs.Logged.{IsEnded, Logs, given, left_of, written};

use crate::logged_reader::LoggedReader;
use crate::logged_writer::LoggedWriter;
use outside::{Failed, Input, Output};
use std::fs;
use std::rt::Files;

/// A file as an input. It is opened at the first read.
#[derive(Drop)]
pub struct FileInput<'a, R: Files> {
    rt: &'a R,
    name: &'a String,
    file: Option<LoggedReader<R::File>>,
    faults: u64,
}

impl<'a, R: Files> FileInput<'a, R> {
    /// Nothing was opened.
    pub fn new(rt: &'a R, name: &'a String) -> FileInput<'a, R>
        ensures unopened { result.file ≡ None }
        ensures faults { result.faults ≡ 0 }
    {
        FileInput {
            rt,
            name,
            file: None,
            faults: 0,
        }
    }

    // Reads into the beginning of `buf`, from the file that is open or is opened now.
    fn read_file(&mut self, buf: &mut [u8]) -> Result<usize, Failed>
        ensures bound { IfOk result (λ n. n ≤ length buf.new) }
        ensures bytes { ReadConsumes (left_of R.File.remaining self.old.file)
            (left_of R.File.remaining self.new.file) result buf.new }
        ensures taken { Takes (given self.old.file) (given self.new.file) (IsEnded self.new.file)
            result buf.new }
        ensures faults { self.new.faults ≡ self.old.faults }
    {
        if self.file.is_none() {
            let file = fs::open(self.rt, self.name.as_str()).map_err(|_| Failed)?;
            self.file = Some(LoggedReader::new(file));
        }
        match &mut self.file {
            Some(file) => file.read(buf),
            None => Err(Failed),
        }
    }
}

impl<'a, R: Files> Input for FileInput<'a, R> {
    ghost left = { λ s. left_of R.File.remaining s.file };

    ghost taken = { λ s. given s.file };

    ghost ended = { λ s. IsEnded s.file };

    ghost faults = { λ s. s.faults };

    fn read(&mut self, buf: &mut [u8]) -> Result<usize, Failed>
        requires { 0 < length buf.old }
        ensures bound { IfOk result (λ n. n ≤ length buf.new) }
        ensures bytes { ReadConsumes (left_of R.File.remaining self.old.file)
            (left_of R.File.remaining self.new.file) result buf.new }
        ensures taken { Takes (given self.old.file) (given self.new.file) (IsEnded self.new.file)
            result buf.new }
        ensures cause { HasCause self.old.faults self.new.faults (IsErr result) }

        // Each failure counts once.
        ensures faulty { OnErr result (self.new.faults ≡ next_count self.old.faults) }
        ensures good { OnOk result (self.new.faults ≡ self.old.faults) }
    {
        let result = self.read_file(buf);
        if result.is_err() {
            self.faults = self.faults.saturating_add(1);
        }
        result
    }
}

/// A file as an output. It is made, or emptied where it is there, at the first write.
#[derive(Drop)]
pub struct FileOutput<'a, R: Files> {
    rt: &'a R,
    name: &'a String,
    file: Option<LoggedWriter<R::File>>,
    faults: u64,
}

impl<'a, R: Files> FileOutput<'a, R> {
    /// Nothing was made.
    pub fn new(rt: &'a R, name: &'a String) -> FileOutput<'a, R>
        ensures unopened { result.file ≡ None }
        ensures faults { result.faults ≡ 0 }
    {
        FileOutput {
            rt,
            name,
            file: None,
            faults: 0,
        }
    }

    // Writes a beginning of the bytes, to the file that is open or is made now.
    fn write_file(&mut self, bytes: &[u8]) -> Result<usize, Failed>
        ensures bound { IfOk result (λ n. (1 ≤ n) × (n ≤ length bytes.now)) }
        ensures logged { Logs (written self.old.file) (written self.new.file) result bytes.now }
        ensures faults { self.new.faults ≡ self.old.faults }
    {
        if self.file.is_none() {
            let file = fs::create(self.rt, self.name.as_str()).map_err(|_| Failed)?;
            self.file = Some(LoggedWriter::new(file));
        }
        match &mut self.file {
            Some(file) => file.write(bytes),
            None => Err(Failed),
        }
    }
}

impl<'a, R: Files> Output for FileOutput<'a, R> {
    ghost written = { λ s. Some (written s.file) };

    ghost faults = { λ s. s.faults };

    fn write(&mut self, bytes: &[u8]) -> Result<usize, Failed>
        requires { 0 < length bytes.now }
        ensures bound { IfOk result (λ n. (1 ≤ n) × (n ≤ length bytes.now)) }
        ensures bytes { WriteAppends (Some (written self.old.file)) (Some (written self.new.file))
            result bytes.now }
        ensures cause { HasCause self.old.faults self.new.faults (IsErr result) }

        // Each failure counts once.
        ensures faulty { OnErr result (self.new.faults ≡ next_count self.old.faults) }
        ensures good { OnOk result (self.new.faults ≡ self.old.faults) }
    {
        let result = self.write_file(bytes);
        if result.is_err() {
            self.faults = self.faults.saturating_add(1);
        }
        result
    }
}
