//! The items of a GF file, one by one.
ghost use Rattle.std.specs.Prelude.{◌≡◌, ◌+◌, ◌≤◌, ◌<◌, ℕ, List, ◌++◌, ◌∷◌, IfErr, IfOk, IsFalse, MatchOption, None, OnOk, Some, length};
ghost use Rattle.byte_cursor.specs.Cursor.{cursor_after};
ghost use Rattle.gf_reader.specs.Faults.{place_fault};
ghost use Rattle.gf_reader.specs.Items.{IsItem, is_misplaced, item_size, opcode, text_size};

use crate::GfFault;
use crate::fields::field_size;
use crate::opcodes::{BOC, BOC1, LAST_NEW_ROW, LAST_SPECIAL, NEW_ROW, NO_OP, PAINT, POST, SPECIAL};
use byte_cursor::Cursor;
use std::marker::Model;

/// The items that are still to be read, seen as their bytes and those after them.
#[derive(Drop)]
pub struct Items<'a> {
    rest: &'a [u8],
}

impl<'a> Model for Items<'a> {
    ghost use Rattle.std.specs.Prelude.{ℕ, List};

    ghost Value = { List ℕ };

    ghost view = { λ i. i.rest.now };
}

impl<'a> Items<'a> {
    pub fn new(rest: &'a [u8]) -> Items<'a>
        ensures { result ≡ rest.now }
    {
        Items { rest }
    }

    /// The bytes of the next item, or `None` at the closing command. `in_character` tells whether a
    /// character is open. `Short` where the file ends within the item or before it, `Misplaced`
    /// where its opcode may not stand there.
    pub fn next(&mut self, in_character: bool) -> Result<Option<&'a [u8]>, GfFault>
        ensures item { IfOk result (λ next. MatchOption next
            (IsFalse in_character × (unused : List ℕ) × (self.old ≡ 248 ∷ unused))
            (λ item. (self.old ≡ item.now ++ self.new) × IsItem in_character item.now)) }
        ensures fault { IfErr result (λ f. place_fault in_character self.old ≡ Some f) }
    {
        let size = item_size(self.rest, in_character)?;
        let (item, rest) = self.rest.split_at(size);
        if item[0] == POST {
            return Ok(None);
        }
        self.rest = rest;
        Ok(Some(item))
    }

    /// Reads a paint of one byte, of at most so many pixels, and gives how many it has. `None`
    /// where another item comes next, which stays unread.
    #[inline(always)]
    pub fn short_paint(&mut self, most: u32) -> Option<u32>
        ensures { MatchOption result (self.new ≡ self.old)
            (λ n. (self.old ≡ n ∷ self.new) × (n < 64) × (n ≤ most)) }
    {
        let len = self.rest.len();
        if len == 0 {
            return None;
        }
        let op = self.rest[0];
        let n = u32::from(op);
        if op >= PAINT || n > most {
            return None;
        }
        self.rest = &self.rest[1..len];
        Some(n)
    }

    /// Reads the beginning of a new row that begins with black, and gives its column. `None` where
    /// another item comes next, which stays unread.
    #[inline(always)]
    pub fn new_row(&mut self) -> Option<u32>
        ensures { MatchOption result (self.new ≡ self.old)
            (λ k. (self.old ≡ (k + 74) ∷ self.new) × (k ≤ 164)) }
    {
        let len = self.rest.len();
        if len == 0 {
            return None;
        }
        let op = self.rest[0];
        if op < NEW_ROW || op > LAST_NEW_ROW {
            return None;
        }
        self.rest = &self.rest[1..len];
        Some(u32::from(op - NEW_ROW))
    }
}

// Whether an opcode may not stand in a character, or between characters.
fn is_misplaced(op: u8, in_character: bool) -> bool
    ensures { result ≡ is_misplaced in_character op }
{
    if SPECIAL <= op && op <= NO_OP {
        return false;
    }
    if op == BOC || op == BOC1 || op == POST {
        return in_character;
    }
    op > LAST_NEW_ROW || !in_character
}

// The size of the item that begins here, or why none does; that of the closing command is 1.
fn item_size(rest: &[u8], in_character: bool) -> Result<usize, GfFault>
    ensures size { IfOk result (λ size. size ≡ item_size rest.now) }
    ensures within { IfOk result (λ size. size ≤ length rest.now) }
    ensures some { OnOk result (1 ≤ length rest.now) }
    ensures placed { OnOk result (IsFalse (is_misplaced in_character (opcode rest.now))) }
    ensures fault { IfErr result (λ f. place_fault in_character rest.now ≡ Some f) }
{
    let mut cursor = Cursor::new(rest);
    let op = cursor.byte()?;
    if is_misplaced(op, in_character) {
        return Err(GfFault::Misplaced(op));
    }
    let size = field_size(op);
    if SPECIAL <= op && op <= LAST_SPECIAL {
        let text = cursor.unsigned(size)? as usize;
        cursor.take(text)?;
    } else {
        cursor.take(size)?;
    }
    Ok(cursor.at())
}
