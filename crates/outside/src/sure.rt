//! An input in memory that never fails, and an output in memory that fails only where it is full.
ghost use Rattle.std.specs.Prelude.{◌≡◌, ◌≤◌, ◌<◌, ◌-◌, ◌↔◌, [], Some, drop, length, min, take, IfOk, IsErr, IsOk, OnErr, OnOk, vec_capacity};
ghost use Rattle.std.specs.Io.KnownBytes.{ReadConsumes, WriteAppends};
ghost use Rattle.outside.specs.Counts.{HasCause, next_count};
ghost use Rattle.outside.specs.Streams.{Takes};

use crate::memory::copy_prefix;
use crate::{Failed, Input, Output};
use std::alloc::{AllocError as NoMemory, Global};

/// Bytes that are read, each read giving as many as fit. No read fails.
#[derive(Debug, Drop)]
pub struct SureInput {
    bytes: Vec<u8>,
    at: usize,
    ghost inside: { at ≤ length bytes.items },
}

impl SureInput {
    /// All the bytes are left.
    pub fn new(bytes: Vec<u8>) -> SureInput
        ensures { drop result.at result.bytes.items ≡ bytes.items }
    {
        SureInput { bytes, at: 0 }
    }
}

impl Input for SureInput {
    ghost left = { λ s. Some (drop s.at s.bytes.items) };

    ghost taken = { λ s. take s.at s.bytes.items };

    ghost ended = { λ s. drop s.at s.bytes.items ≡ [] };

    ghost faults = { λ _. 0 };

    fn read(&mut self, buf: &mut [u8]) -> Result<usize, Failed>
        requires { 0 < length buf.old }
        ensures bound { IfOk result (λ n. n ≤ length buf.new) }
        ensures bytes { ReadConsumes (Some (drop self.old.at self.old.bytes.items))
            (Some (drop self.new.at self.new.bytes.items)) result buf.new }
        ensures taken { Takes (take self.old.at self.old.bytes.items)
            (take self.new.at self.new.bytes.items) (drop self.new.at self.new.bytes.items ≡ [])
            result buf.new }
        ensures cause { HasCause 0 0 (IsErr result) }

        ensures never_fails { IsOk result }
        ensures count { IfOk result (λ n.
            n ≡ min (length (drop self.old.at self.old.bytes.items)) (length buf.new)) }
    {
        let room = buf.len();
        let n = copy_prefix(&self.bytes[self.at..], room, buf);
        self.at += n;
        Ok(n)
    }
}

/// Bytes that are written into a room that was taken at the start.
#[derive(Debug, Drop)]
pub struct SureOutput {
    bytes: Vec<u8>,
    room: usize,
    faults: u64,
    ghost fits: { length bytes.items ≤ room },
    ghost taken: { room ≤ vec_capacity bytes },
}

impl SureOutput {
    /// Takes room for n bytes, so that no write needs memory.
    pub fn new(alloc: Global, room: usize) -> Result<SureOutput, NoMemory>
        ensures empty { IfOk result (λ s. s.bytes.items ≡ []) }
        ensures room { IfOk result (λ s. s.room ≡ room) }
        ensures unused { IfOk result (λ s. s.faults ≡ 0) }
    {
        Ok(SureOutput {
            bytes: Vec::with_capacity(alloc, room)?,
            room,
            faults: 0,
        })
    }

    /// What was written.
    pub fn bytes(&self) -> &[u8]
        ensures { result.now ≡ self.now.bytes.items }
    {
        &self.bytes
    }
}

impl Output for SureOutput {
    ghost written = { λ s. Some s.bytes.items };

    ghost faults = { λ s. s.faults };

    fn write(&mut self, bytes: &[u8]) -> Result<usize, Failed>
        requires { 0 < length bytes.now }
        ensures bound { IfOk result (λ n. (1 ≤ n) × (n ≤ length bytes.now)) }
        ensures bytes { WriteAppends (Some self.old.bytes.items) (Some self.new.bytes.items) result
            bytes.now }
        ensures cause { HasCause self.old.faults self.new.faults (IsErr result) }

        // It fails exactly where its room is full.
        ensures full { IsErr result ↔ (length self.old.bytes.items ≡ self.old.room) }
        ensures faulty { OnErr result (self.new.faults ≡ next_count self.old.faults) }
        ensures good { OnOk result (self.new.faults ≡ self.old.faults) }

        // As many bytes as there is room for.
        ensures count { IfOk result (λ n.
            n ≡ min (length bytes.now) (self.old.room - length self.old.bytes.items)) }
        ensures keeps { self.new.room ≡ self.old.room }
    {
        let n = bytes.len().min(self.room - self.bytes.len());
        if n == 0 {
            self.faults = self.faults.saturating_add(1);
            return Err(Failed);
        }
        self.bytes.extend_from_slice(&bytes[..n]).unwrap();
        Ok(n)
    }
}
