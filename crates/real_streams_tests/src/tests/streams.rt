//! A stream that does what a list of calls says.
ghost use Rattle.std.specs.Prelude.{◌≤◌, length, IfOk};

use std::alloc::Global;
use std::io::{self, ErrorKind, Read, Write};

// What one call of a stream does.
#[derive(Clone, Copy)]
pub enum Call {
    // It moves no more than so many bytes.
    Moves(usize),
    // It fails so.
    Fails(ErrorKind),
}

// The calls of a stream. After those that are listed each moves as many bytes as it can.
#[derive(Clone, Copy)]
pub struct Calls {
    listed: &'static [Call],
    made: usize,
}

impl Calls {
    pub fn new(listed: &'static [Call]) -> Calls {
        Calls { listed, made: 0 }
    }

    // How many of the bytes that there are the next call moves.
    fn next(&mut self, most: usize) -> io::Result<usize>
        ensures { IfOk result (λ n. n ≤ most) }
    {
        let call = self.listed.get(self.made);
        self.made = self.made.saturating_add(1);
        match call {
            Some(Call::Moves(n)) => Ok(most.min(*n)),
            Some(Call::Fails(kind)) => Err((*kind).into()),
            None => Ok(most),
        }
    }
}

// A stream of these bytes.
#[derive(Drop)]
pub struct Source {
    pub left: &'static [u8],
    pub calls: Calls,
}

impl Read for Source {
    fn read(&mut self, buf: &mut [u8]) -> io::Result<usize> {
        let n = self.calls.next(self.left.len().min(buf.len()))?;
        let (now, left) = self.left.split_at(n);
        buf[..n].copy_from_slice(now);
        self.left = left;
        Ok(n)
    }
}

// A stream that holds what it takes.
#[derive(Drop)]
pub struct Sink {
    pub held: Vec<u8>,
    pub calls: Calls,
}

impl Sink {
    pub fn new(alloc: Global, calls: Calls) -> Sink {
        Sink {
            held: Vec::new(alloc),
            calls,
        }
    }
}

impl Write for Sink {
    fn write(&mut self, buf: &[u8]) -> io::Result<usize> {
        let n = self.calls.next(buf.len())?;
        self.held.extend_from_slice(&buf[..n])?;
        Ok(n)
    }

    fn flush(&mut self) -> io::Result<()> {
        Ok(())
    }
}
