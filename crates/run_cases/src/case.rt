//! One case: what a run is given, and what is told of it.
ghost use Rattle.std.specs.Prelude.{◌≤◌};

use crate::bytes::{Names, number};
use crate::document::Document;
use crate::fonts::Failures;
use outside::{MemInput, MemOutput};
use std::alloc::{AllocError as NoMemory, Global};
use std::io::{self, ErrorKind};
use std::mem;

/// An input or an output: how many bytes it takes at once, and which of its calls fail.
#[derive(Drop)]
pub struct Stream {
    piece: u64,
    fails: Vec<u64>,
}

/// What a run is given, and what is told of it.
#[derive(Drop)]
pub struct Case {
    document: Document,
    /// The arguments.
    pub words: Vec<String>,
    input: Stream,
    output: Stream,
    notes: Stream,
    /// How many workers are at hand.
    pub workers: u64,
    /// Which loads of each worker's source fail.
    pub failures: Failures,
    /// The fewest and the most pages that are to be drawn.
    pub drawn: Vec<u64>,
    /// Of each page the first letters of the fonts that it looks up.
    pub looks: Vec<Vec<u8>>,
    /// Which counts are told.
    pub counts: String,
    /// How many of the first and of the last bytes of the notes are told, where it isn't all.
    pub note_ends: Vec<u64>,
}

/// The streams of a run.
#[derive(Drop)]
pub struct Streams {
    pub input: MemInput,
    pub output: MemOutput,
    pub notes: MemOutput,
}

impl Stream {
    fn new(alloc: Global) -> Stream {
        Stream {
            piece: 64,
            fails: Vec::new(alloc),
        }
    }

    // How many bytes at once.
    fn piece(&self) -> usize
        ensures { 1 ≤ result }
    {
        self.piece.max(1) as usize
    }

    // Hands the numbers of the failing calls out.
    fn fails(&mut self, alloc: Global) -> Vec<u64> {
        mem::replace(&mut self.fails, Vec::new(alloc))
    }
}

impl Case {
    /// No bytes and no arguments; 64 bytes at once, one worker, and nothing fails.
    pub fn new(alloc: Global) -> Case {
        Case {
            document: Document::new(alloc),
            words: Vec::new(alloc),
            input: Stream::new(alloc),
            output: Stream::new(alloc),
            notes: Stream::new(alloc),
            workers: 1,
            failures: Failures::none(alloc),
            drawn: Vec::new(alloc),
            looks: Vec::new(alloc),
            counts: String::new(alloc),
            note_ends: Vec::new(alloc),
        }
    }

    // Sets a number. Says whether there is one of this name.
    fn set(&mut self, key: &str, value: u64) -> bool {
        match key {
            "read" => self.input.piece = value,
            "write" => self.output.piece = value,
            "note" => self.notes.piece = value,
            "workers" => self.workers = value,
            _ => return false,
        }
        true
    }

    // Adds to a list of numbers.
    fn add(&mut self, key: &str, value: u64) -> io::Result<()> {
        match key {
            "failed_reads" => self.input.fails.push(value)?,
            "failed_writes" => self.output.fails.push(value)?,
            "failed_notes" => self.notes.fails.push(value)?,
            "failed_loads" => self.failures.failed.push(value)?,
            "starved_loads" => self.failures.starved.push(value)?,
            "drawn" => self.drawn.push(value)?,
            "note_ends" => self.note_ends.push(value)?,
            _ => return Err(ErrorKind::InvalidInput.into()),
        }
        Ok(())
    }

    // Takes numbers in that stand between commas.
    fn take_numbers(&mut self, key: &str, text: &str) -> io::Result<()> {
        for part in text.split(',') {
            let value = number(part)?;
            if !self.set(key, value) {
                self.add(key, value)?;
            }
        }
        Ok(())
    }

    // Takes the looks of pages in, all of them n times.
    fn take_looks(&mut self, alloc: Global, text: &str) -> io::Result<()> {
        let (times, list) = text.split_once(':').unwrap_or(("1", text));
        for _ in 0..number(times)? {
            for page in list.split(',') {
                self.looks.push(Vec::from_slice(alloc, page.as_bytes())?)?;
            }
        }
        Ok(())
    }

    // Takes an argument in.
    fn take_word(&mut self, alloc: Global, word: &str) -> Result<(), NoMemory> {
        self.words.push(String::from_str(alloc, word)?)?;
        Ok(())
    }

    /// Takes a field in, which is an argument where it begins with a hyphen, and else
    /// `KEY=VALUE`.
    pub fn take(&mut self, alloc: Global, names: &Names, field: &str) -> io::Result<()> {
        if field.starts_with('-') {
            return Ok(self.take_word(alloc, field)?);
        }
        let (key, value) = field.split_once('=').unwrap_or((field, ""));
        match key {
            "word" => Ok(self.take_word(alloc, value)?),
            "looks" => self.take_looks(alloc, value),
            "counts" => Ok(self.counts.push_str(value)?),
            "failed_files" => Ok(self.failures.front.extend_from_slice(value.as_bytes())?),
            "doc" | "at" | "cut" | "fonts" | "pages" => {
                self.document.take(alloc, names, key, value)
            }
            _ => self.take_numbers(key, value),
        }
    }

    /// The streams, which takes the document and the lists of failing calls out.
    pub fn streams(&mut self, alloc: Global) -> Result<Streams, NoMemory> {
        let document = self.document.finish(alloc)?;
        Ok(Streams {
            input: MemInput::new(document, self.input.piece(), self.input.fails(alloc)),
            output: MemOutput::new(alloc, self.output.piece(), self.output.fails(alloc)),
            notes: MemOutput::new(alloc, self.notes.piece(), self.notes.fails(alloc)),
        })
    }

    /// The number that an argument `NAME=N` gives, or else another one.
    pub fn setting(&self, name: &str, other: u64) -> u64 {
        for word in &self.words {
            if let Some((key, value)) = word.split_once('=') {
                if key == name {
                    return number(value).unwrap_or(other);
                }
            }
        }
        other
    }
}
