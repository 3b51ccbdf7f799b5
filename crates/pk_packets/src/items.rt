//! The items of a PK file, one by one.
ghost use Rattle.std.specs.Prelude.{◌≡◌, ℕ, List, ◌++◌, ◌∷◌, IfErr, IfOk, MatchOption};
ghost use Rattle.pk_packets.specs.Faults.{IsItemFault};
ghost use Rattle.pk_packets.specs.Items.{IsItem};

mod sizes;

use crate::PkFault;
use crate::opcodes::POST;
use sizes::item_size;
use std::marker::Model;

/// The items that are still to be read, seen as their bytes and those after them.
#[derive(Drop)]
pub struct Items<'a> {
    rest: &'a [u8],
}

impl<'a> Model for Items<'a> {
    ghost use Rattle.std.specs.Prelude.{ℕ, List};

    ghost Value = { List ℕ };

    ghost view = { λ i. i.rest.now };
}

impl<'a> Items<'a> {
    pub fn new(rest: &'a [u8]) -> Items<'a>
        ensures { result ≡ rest.now }
    {
        Items { rest }
    }

    /// The bytes of the next item, or `None` at the closing command. `Short` where the file ends
    /// within the item or before it, `Undefined` at an opcode from 247 on.
    pub fn next(&mut self) -> Result<Option<&'a [u8]>, PkFault>
        ensures item { IfOk result (λ next. MatchOption next
            ((unused : List ℕ) × (self.old ≡ 245 ∷ unused))
            (λ item. (self.old ≡ item.now ++ self.new) × IsItem item.now)) }
        ensures fault { IfErr result (IsItemFault self.old) }
    {
        let size = item_size(self.rest)?;
        let (item, rest) = self.rest.split_at(size);
        if item[0] == POST {
            return Ok(None);
        }
        self.rest = rest;
        Ok(Some(item))
    }
}
