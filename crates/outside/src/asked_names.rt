//! The names that a source in memory was asked for.
ghost use Rattle.std.specs.Prelude.{◌≡◌, ◌++◌, ◌∷◌, [], None, OnErr, OnOk, Some};
ghost use Rattle.std.specs.Option.{option_map};
ghost use Rattle.outside.specs.Library.{Asks};

use crate::FileName;
use std::alloc::{AllocError as NoMemory, Global};
use std::marker::Model;

/// Names in the order in which they were asked for. A contract sees the list, or nothing from the
/// first name on for which memory ran out.
#[derive(Drop)]
pub struct AskedNames {
    names: Vec<FileName>,
    is_told: bool,
}

impl Model for AskedNames {
    ghost use Rattle.std.specs.Prelude.{Some, None, if◌then◌else◌};
    ghost use Rattle.outside.specs.Library.{Names};

    ghost Value = { Names };

    ghost view = { λ a. if a.is_told then Some a.names.items else None };
}

impl AskedNames {
    /// No name.
    pub fn new(alloc: Global) -> AskedNames
        ensures { result ≡ Some [] }
    {
        AskedNames {
            names: Vec::new(alloc),
            is_told: true,
        }
    }

    /// The names, where they are known.
    pub fn names(&self) -> Option<&[FileName]>
        ensures { option_map (λ names. names.now) result ≡ self.now }
    {
        if self.is_told {
            Some(&self.names)
        } else {
            None
        }
    }

    // Keeps a name after the others, without a look at whether they are known.
    fn keep(&mut self, name: &FileName) -> Result<(), NoMemory>
        ensures { OnOk result (Asks self.old self.new (name.now ∷ [])) }
    {
        self.names.push(name.clone()?)?;
        Ok(())
    }

    /// Adds a name. Where memory runs out, no name is known from then on.
    pub fn add(&mut self, name: &FileName) -> Result<(), NoMemory>
        ensures ok { OnOk result (Asks self.old self.new (name.now ∷ [])) }
        ensures err { OnErr result (self.new ≡ None) }
    {
        let kept = self.keep(name);
        if kept.is_err() {
            self.is_told = false;
        }
        kept
    }
}
