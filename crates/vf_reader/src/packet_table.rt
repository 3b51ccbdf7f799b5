//! Where a font's packets are, and what they weigh.
ghost use Rattle.std.specs.Prelude.{◌≡◌, ◌==◌, ◌≤◌, ℕ, IfOk, None, OnOk, Some, if◌then◌else◌};
ghost use Rattle.vf_reader.specs.Fonts.{span_of};
ghost use Rattle.vf_reader.specs.Weights.{MAX_SPAN_BYTES, span_bytes, spans_weight};

use crate::span_map::SpanMap;
use std::alloc::{AllocError as NoMemory, Global};
use std::marker::Model;

/// A part of the file's bytes, up to `end`.
#[derive(Clone, Copy, Debug, PartialEq, Eq)]
pub struct Span {
    pub start: usize,
    pub end: usize,
}

/// A span for each code that has a packet, and the bytes that they take together. A contract sees
/// it as the spans of the codes from 0 to 255 by their places and those of the others by their
/// codes; `span_of` says which one a code has, and `spans_weight` what they weigh.
#[derive(Drop)]
pub struct PacketTable {
    spans: SpanMap,
    weight: u128,
}

impl Model for PacketTable {
    ghost use Rattle.vf_reader.specs.Fonts.{Spans};
    ghost use Rattle.vf_reader.specs.Weights.{IsWeighed};

    ghost Value = { Spans };

    ghost view = { λ t. t.spans };

    ghost invariant = { λ t. IsWeighed t.spans t.weight };
}

// The bytes of a span.
fn bytes_of(span: Option<Span>) -> usize
    ensures bytes { result ≡ span_bytes span }
    ensures few { result ≤ MAX_SPAN_BYTES }
{
    match span {
        Some(Span { start, end }) => end.saturating_sub(start),
        None => 0,
    }
}

impl PacketTable {
    /// No packet.
    pub fn empty(alloc: Global) -> Result<PacketTable, NoMemory>
        ensures { IfOk result (λ table. (c : ℕ) → span_of table c ≡ None) }
    {
        Ok(PacketTable {
            spans: SpanMap::empty(alloc)?,
            weight: 0,
        })
    }

    /// Gives a code a span, in place of the one that it may have.
    pub fn put(&mut self, c: u32, span: Span) -> Result<(), NoMemory>
        ensures { OnOk result ((k : ℕ) → span_of self.new k
            ≡ (if c == k then Some span else span_of self.old k)) }
    {
        let replaced = bytes_of(self.spans.get(c)) as u128;
        let added = bytes_of(Some(span)) as u128;
        self.spans.put(c, span)?;
        self.weight = self.weight - replaced + added;
        Ok(())
    }

    /// The span of a code.
    pub fn get(&self, c: u32) -> Option<Span>
        ensures { result ≡ span_of self.now c }
    {
        self.spans.get(c)
    }

    /// The bytes that the spans take together, one for each code.
    pub fn weight(&self) -> u128
        ensures { result ≡ spans_weight self.now }
    {
        self.weight
    }
}
