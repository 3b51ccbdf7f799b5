//! A map from codes to spans.
ghost use Rattle.std.specs.Prelude.{◌≡◌, ◌==◌, ℕ, IfOk, None, OnErr, OnOk, Some, if◌then◌else◌, replicate};
ghost use Rattle.vf_reader.specs.Fonts.{span_of};

use crate::packet_table::Span;
use std::alloc::{AllocError as NoMemory, Global};
use std::collections::BTreeMap;
use std::marker::Model;

// The codes that have a place in the table.
const TABLE_CODES: u32 = 256;

/// The span of each code that has one. A contract sees it as the spans of the codes from 0 to 255
/// by their places and those of the others by their codes; `span_of` says which one a code has.
#[derive(Drop)]
pub struct SpanMap {
    table: Vec<Option<Span>>,
    others: BTreeMap<u32, Span>,
}

impl Model for SpanMap {
    ghost use Rattle.std.specs.Prelude.{◌≡◌, length};
    ghost use Rattle.vf_reader.specs.Fonts.{Spans};

    ghost Value = { Spans };

    ghost view = { λ t. record { table = t.table.items; others = t.others.entries } };

    ghost invariant = { λ t. length t.table.items ≡ 256 };
}

// A table without spans.
fn no_spans(alloc: Global) -> Result<Vec<Option<Span>>, NoMemory>
    ensures { IfOk result (λ table. table.items ≡ replicate 256 None) }
{
    let mut table = Vec::with_capacity(alloc, TABLE_CODES as usize)?;
    for _code in 0..TABLE_CODES {
        table.push(None)?;
    }
    Ok(table)
}

impl SpanMap {
    /// No span.
    pub fn empty(alloc: Global) -> Result<SpanMap, NoMemory>
        ensures { IfOk result (λ map. (c : ℕ) → span_of map c ≡ None) }
    {
        Ok(SpanMap {
            table: no_spans(alloc)?,
            others: BTreeMap::new(alloc),
        })
    }

    /// Gives a code a span, in place of the one that it may have. `NoMemory` leaves the map as it
    /// was.
    pub fn put(&mut self, c: u32, span: Span) -> Result<(), NoMemory>
        ensures put { OnOk result ((k : ℕ) → span_of self.new k
            ≡ (if c == k then Some span else span_of self.old k)) }
        ensures unchanged { OnErr result (self.new ≡ self.old) }
    {
        if c < TABLE_CODES {
            self.table[c as usize] = Some(span);
        } else {
            self.others.insert(c, span)?;
        }
        Ok(())
    }

    /// The span of a code.
    pub fn get(&self, c: u32) -> Option<Span>
        ensures { result ≡ span_of self.now c }
    {
        if c < TABLE_CODES {
            self.table[c as usize]
        } else {
            self.others.get(&c).copied()
        }
    }
}
