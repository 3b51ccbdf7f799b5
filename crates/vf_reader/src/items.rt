//! The items of a VF file, one by one.
ghost use Rattle.std.specs.Prelude.{◌≡◌, ℕ, List, ◌++◌, ◌∷◌, IfErr, IfOk, MatchOption, length};
ghost use Rattle.vf_reader.specs.Faults.{IsItemFault};
ghost use Rattle.vf_reader.specs.Items.{IsItem};

mod sizes;

use crate::VfFault;
use crate::opcodes::POST;
use sizes::item_size;
use std::marker::Model;

/// The items that are still to be read, seen as their bytes and those after them.
#[derive(Drop)]
pub struct Items<'a> {
    rest: &'a [u8],
}

impl<'a> Model for Items<'a> {
    ghost use Rattle.std.specs.Prelude.{ℕ, List};

    ghost Value = { List ℕ };

    ghost view = { λ i. i.rest.now };
}

impl<'a> Items<'a> {
    pub fn new(rest: &'a [u8]) -> Items<'a>
        ensures { result ≡ rest.now }
    {
        Items { rest }
    }

    /// How many bytes are still to be read.
    pub fn left(&self) -> usize
        ensures { result ≡ length self.now }
    {
        self.rest.len()
    }

    /// The bytes of the next item, or `None` at the closing command. `Short` where the file ends
    /// within the item or before it, `Misplaced` at 247 and from 249 on.
    pub fn next(&mut self) -> Result<Option<&'a [u8]>, VfFault>
        ensures item { IfOk result (λ next. MatchOption next
            ((unused : List ℕ) × (self.old ≡ 248 ∷ unused))
            (λ item. (self.old ≡ item.now ++ self.new) × IsItem item.now)) }
        ensures fault { IfErr result (IsItemFault self.old) }
    {
        if self.rest.first() == Some(&POST) {
            return Ok(None);
        }
        let size = item_size(self.rest)?;
        let (item, rest) = self.rest.split_at(size);
        self.rest = rest;
        Ok(Some(item))
    }
}
