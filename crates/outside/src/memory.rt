//! Inputs and outputs in memory, of which chosen calls fail.
ghost use Rattle.std.specs.Prelude.{◌≡◌, ◌≤◌, ◌<◌, ◌↔◌, [], Some, drop, length, min, take, Contains, IfOk, IsErr, OnErr, OnOk, IsTrue};
ghost use Rattle.std.specs.Io.KnownBytes.{ReadConsumes, WriteAppends};
ghost use Rattle.outside.specs.Counts.{HasCause, next_count};
ghost use Rattle.outside.specs.Streams.{Takes};

use crate::{Failed, Input, Output};
use std::alloc::Global;

// Whether the call of this number is one of those that fail.
pub(crate) fn is_listed(fails: &[u64], call: u64) -> bool
    ensures { IsTrue result ↔ Contains fails.now call }
{
    fails.contains(&call)
}

// Copies as many of the bytes that are left as fit, and no more than a piece.
pub(crate) fn copy_prefix(left: &[u8], piece: usize, buf: &mut [u8]) -> usize
    ensures count { result ≡ min (length left.now) (min piece (length buf.new)) }
    ensures copied { take result buf.new ≡ take result left.now }
{
    let n = left.len().min(piece.min(buf.len()));
    buf[..n].copy_from_slice(&left[..n]);
    n
}

/// Bytes that are read in pieces, where the calls with the listed numbers fail.
#[derive(Debug, Drop)]
pub struct MemInput {
    bytes: Vec<u8>,
    at: usize,
    piece: usize,
    fails: Vec<u64>,
    calls: u64,
    faults: u64,
    ghost inside: { at ≤ length bytes.items },
    ghost some_piece: { 1 ≤ piece },
}

impl MemInput {
    /// At most `piece` bytes a read. The calls that `fails` names, from 1, fail.
    pub fn new(bytes: Vec<u8>, piece: usize, fails: Vec<u64>) -> MemInput
        requires { 1 ≤ piece }
        ensures left { drop result.at result.bytes.items ≡ bytes.items }
        ensures pieces { result.piece ≡ piece }
        ensures fails { result.fails.items ≡ fails.items }
        ensures unused { (result.calls ≡ 0) × (result.faults ≡ 0) }
    {
        MemInput {
            bytes,
            at: 0,
            piece,
            fails,
            calls: 0,
            faults: 0,
        }
    }
}

impl Input for MemInput {
    ghost left = { λ m. Some (drop m.at m.bytes.items) };

    ghost taken = { λ m. take m.at m.bytes.items };

    ghost ended = { λ m. drop m.at m.bytes.items ≡ [] };

    ghost faults = { λ m. m.faults };

    fn read(&mut self, buf: &mut [u8]) -> Result<usize, Failed>
        requires { 0 < length buf.old }
        ensures bound { IfOk result (λ n. n ≤ length buf.new) }
        ensures bytes { ReadConsumes (Some (drop self.old.at self.old.bytes.items))
            (Some (drop self.new.at self.new.bytes.items)) result buf.new }
        ensures taken { Takes (take self.old.at self.old.bytes.items)
            (take self.new.at self.new.bytes.items) (drop self.new.at self.new.bytes.items ≡ [])
            result buf.new }
        ensures cause { HasCause self.old.faults self.new.faults (IsErr result) }

        // The calls are counted from 1, and those that are listed fail.
        ensures calls { self.new.calls ≡ next_count self.old.calls }
        ensures listed { IsErr result ↔ Contains self.old.fails.items self.new.calls }
        ensures faulty { OnErr result (self.new.faults ≡ next_count self.old.faults) }
        ensures good { OnOk result (self.new.faults ≡ self.old.faults) }

        // As many bytes as are left and fit, and no more than a piece.
        ensures count { IfOk result (λ n. n ≡ min (length (drop self.old.at self.old.bytes.items))
            (min self.old.piece (length buf.new))) }
        ensures keeps { (self.new.piece ≡ self.old.piece) × (self.new.fails ≡ self.old.fails) }
    {
        self.calls = self.calls.saturating_add(1);
        if is_listed(&self.fails, self.calls) {
            self.faults = self.faults.saturating_add(1);
            return Err(Failed);
        }
        let n = copy_prefix(&self.bytes[self.at..], self.piece, buf);
        self.at += n;
        Ok(n)
    }
}

/// Bytes that are written in pieces, where the calls with the listed numbers fail.
#[derive(Debug, Drop)]
pub struct MemOutput {
    bytes: Vec<u8>,
    piece: usize,
    fails: Vec<u64>,
    calls: u64,
    faults: u64,
    ghost some_piece: { 1 ≤ piece },
}

impl MemOutput {
    /// At most `piece` bytes a write. The calls that `fails` names, from 1, fail, and so does one
    /// for which there is no memory.
    pub fn new(alloc: Global, piece: usize, fails: Vec<u64>) -> MemOutput
        requires { 1 ≤ piece }
        ensures empty { result.bytes.items ≡ [] }
        ensures pieces { result.piece ≡ piece }
        ensures fails { result.fails.items ≡ fails.items }
        ensures unused { (result.calls ≡ 0) × (result.faults ≡ 0) }
    {
        MemOutput {
            bytes: Vec::new(alloc),
            piece,
            fails,
            calls: 0,
            faults: 0,
        }
    }

    /// What was written.
    pub fn bytes(&self) -> &[u8]
        ensures { result.now ≡ self.now.bytes.items }
    {
        &self.bytes
    }
}

impl Output for MemOutput {
    ghost written = { λ m. Some m.bytes.items };

    ghost faults = { λ m. m.faults };

    fn write(&mut self, bytes: &[u8]) -> Result<usize, Failed>
        requires { 0 < length bytes.now }
        ensures bound { IfOk result (λ n. (1 ≤ n) × (n ≤ length bytes.now)) }
        ensures bytes { WriteAppends (Some self.old.bytes.items) (Some self.new.bytes.items) result
            bytes.now }
        ensures cause { HasCause self.old.faults self.new.faults (IsErr result) }

        // The calls are counted from 1, and those that are listed fail. Another call fails only for
        // want of memory.
        ensures calls { self.new.calls ≡ next_count self.old.calls }
        ensures listed { Contains self.old.fails.items self.new.calls → IsErr result }
        ensures faulty { OnErr result (self.new.faults ≡ next_count self.old.faults) }
        ensures good { OnOk result (self.new.faults ≡ self.old.faults) }

        // All bytes, but no more than a piece.
        ensures count { IfOk result (λ n. n ≡ min (length bytes.now) self.old.piece) }
        ensures keeps { (self.new.piece ≡ self.old.piece) × (self.new.fails ≡ self.old.fails) }
    {
        self.calls = self.calls.saturating_add(1);
        if is_listed(&self.fails, self.calls) {
            self.faults = self.faults.saturating_add(1);
            return Err(Failed);
        }
        let n = bytes.len().min(self.piece);
        match self.bytes.extend_from_slice(&bytes[..n]) {
            Ok(()) => Ok(n),
            Err(_) => {
                self.faults = self.faults.saturating_add(1);
                Err(Failed)
            }
        }
    }
}
