//! The calls of a `Gather`.
ghost use Rattle.std.specs.Prelude.{◌≡◌, ◌⊎◌, ◌≤◌, ◌++◌, ℕ, List, Option, []};
ghost use Rattle.outside.specs.Streams.{Writes};
ghost use Rattle.outside.specs.Gather.{Gathers, held, room_of};

use super::{Gather, PIECE};
use crate::{Failed, Output, write_all};
use std::alloc::Global;

impl Gather {
    /// Nothing was put. Where there is no memory to hold a piece, nothing is gathered: each `put`
    /// is then a write of its own.
    pub fn new(alloc: Global) -> Gather
        ensures { (written : Option (List ℕ)) (faults : ℕ)
            → Gathers written faults result written faults [] }
    {
        Gather {
            piece: Vec::with_capacity(alloc, PIECE).ok(),
            failed: false,
        }
    }

    /// Nothing was put, and nothing is gathered: each `put` is a write of its own. Takes no memory.
    pub fn without_memory() -> Gather
        ensures { (written : Option (List ℕ)) (faults : ℕ)
            → Gathers written faults result written faults [] }
    {
        Gather {
            piece: None,
            failed: false,
        }
    }

    // How many bytes more are held before they are written.
    fn room(&self) -> usize
        ensures { result ≡ room_of self.now }
    {
        match &self.piece {
            Some(piece) => piece.capacity() - piece.len(),
            None => 0,
        }
    }

    // Writes what is held.
    fn flush<O: Output>(&mut self, out: &mut O)
        ensures gathers { (start : Option (List ℕ)) (before : ℕ) (text : List ℕ)
            → Gathers start before self.old (O.written out.old) (O.faults out.old) text
            → Gathers start before self.new (O.written out.new) (O.faults out.new) text }
        ensures none_held { held self.new ≡ [] }
    {
        let Some(piece) = &mut self.piece else {
            return;
        };
        if self.failed {
            piece.clear();
            return;
        }
        self.failed = write_all(out, piece).is_err();
        piece.clear();
    }

    // Writes what is held where there is no room for n bytes after it.
    fn make_room<O: Output>(&mut self, out: &mut O, size: usize)
        ensures gathers { (start : Option (List ℕ)) (before : ℕ) (text : List ℕ)
            → Gathers start before self.old (O.written out.old) (O.faults out.old) text
            → Gathers start before self.new (O.written out.new) (O.faults out.new) text }
        ensures room { size ≤ room_of self.new ⊎ (held self.new ≡ []) }
    {
        if size > self.room() {
            self.flush(out);
        }
    }

    /// Puts the bytes after what was put before. More bytes than are gathered for one write go to
    /// the output at once, uncopied.
    pub fn put<O: Output>(&mut self, out: &mut O, bytes: &[u8])
        ensures { (start : Option (List ℕ)) (before : ℕ) (text longer : List ℕ)
            → Gathers start before self.old (O.written out.old) (O.faults out.old) text
            → longer ≡ text ++ bytes.now
            → Gathers start before self.new (O.written out.new) (O.faults out.new) longer }
    {
        self.make_room(out, bytes.len());
        if self.failed {
            return;
        }
        if bytes.len() > self.room() {
            self.failed = write_all(out, bytes).is_err();
            return;
        }
        if let Some(piece) = &mut self.piece {
            piece.extend_from_slice(bytes).unwrap();
        }
    }

    /// Writes what is still held. `Failed` where a write failed, now or at an earlier `put`: then a
    /// prefix of the text was written, and not all of it.
    pub fn finish<O: Output>(mut self, out: &mut O) -> Result<(), Failed>
        ensures { (start : Option (List ℕ)) (before : ℕ) (text : List ℕ)
            → Gathers start before self (O.written out.old) (O.faults out.old) text
            → Writes start (O.written out.new) before (O.faults out.new) text result }
    {
        self.flush(out);
        if self.failed { Err(Failed) } else { Ok(()) }
    }
}
