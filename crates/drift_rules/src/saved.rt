//! The registers that are saved, the last ones first.

ghost use Rattle.std.specs.Prelude.{◌≡◌, ◌⊎◌, ◌↔◌, ◌≤◌, [], ◌∷◌, length, Err, IfOk, IfErr, OnErr, IfSome, IsNone, IsTrue};
ghost use Rattle.drift_rules.specs.declared.faults.PenFault.{PenFault};
ghost use Rattle.drift_rules.specs.Limits as limits;

use crate::faults::{PenFault, PenStop};
use crate::flat::Registers;
use std::alloc::Global;
use std::marker::Model;

// How many sets of registers may be saved.
const MAX_SAVED: usize = 1000;

/// A stack of registers.
#[derive(Debug, Drop)]
pub(crate) struct Saved {
    sets: Vec<Registers>,
}

impl Model for Saved {
    ghost use Rattle.std.specs.Prelude.{List, reverse};
    ghost use Rattle.drift_rules.specs.declared.flat.Registers.{Registers};

    ghost Value = { List Registers };

    ghost view = { λ s. reverse s.sets.items };
}

impl Saved {
    pub(crate) fn new(alloc: Global) -> Saved
        ensures { result ≡ [] }
    {
        Saved {
            sets: Vec::new(alloc),
        }
    }

    // `StackDeep` is judged before any memory is asked for.
    pub(crate) fn push(&mut self, registers: Registers) -> Result<(), PenStop>
        ensures saved { IfOk result (λ _. self.new ≡ registers ∷ self.old) }
        ensures deep { (result ≡ Err (PenStop.Fault PenFault.StackDeep))
            ↔ (limits.MAX_SAVED ≤ length self.old) }
        ensures only { IfErr result (λ stop. (stop ≡ PenStop.Fault PenFault.StackDeep) ⊎
            (stop ≡ PenStop.NoMemory)) }
        ensures unchanged { OnErr result (self.new ≡ self.old) }
    {
        if self.sets.len() >= MAX_SAVED {
            return Err(PenStop::Fault(PenFault::StackDeep));
        }
        self.sets.push(registers)?;
        Ok(())
    }

    pub(crate) fn pop(&mut self) -> Option<Registers>
        ensures last { IfSome result (λ registers. self.old ≡ registers ∷ self.new) }
        ensures none { IsNone result → (self.old ≡ []) × (self.new ≡ []) }
    {
        self.sets.pop()
    }

    pub(crate) fn is_empty(&self) -> bool
        ensures { IsTrue result ↔ (self.now ≡ []) }
    {
        self.sets.is_empty()
    }
}
