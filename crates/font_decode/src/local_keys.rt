//! The keys of a virtual font's local fonts by their numbers.
ghost use Rattle.std.specs.Prelude.{◌≡◌, [], ℤ, MatchOption, None, OnOk, Some, if◌then◌else◌};
ghost use Rattle.std.specs.Arc.{arc_value};
ghost use Rattle.std.specs.Ordering.{int_cmp, is_eq};
ghost use Rattle.font_decode.specs.Fonts.{key_with};

use outside::FontKey;
use std::alloc::{AllocError as NoMemory, Global};
use std::collections::BTreeMap;
use std::marker::Model;
use std::sync::Arc;
use vf_reader::LocalDef;

/// The key of each number. A contract sees it as a list of them; `key_with` says which one a number
/// has.
#[derive(Drop)]
pub struct LocalKeys {
    keys: BTreeMap<i32, Arc<FontKey>>,
}

impl Model for LocalKeys {
    ghost use Rattle.std.specs.Prelude.{List, ℤ, map};
    ghost use Rattle.std.specs.Arc.{arc_value};
    ghost use Rattle.outside.specs.declared.keys.FontKey.{FontKey};

    ghost Value = { List (ℤ × FontKey) };

    ghost view = { λ t. map (λ e. (e.0, arc_value e.1)) t.keys.entries };
}

impl LocalKeys {
    /// No key.
    pub fn new(alloc: Global) -> LocalKeys
        ensures { result ≡ [] }
    {
        LocalKeys {
            keys: BTreeMap::new(alloc),
        }
    }

    /// The key of this number.
    pub fn get(&self, number: i32) -> Option<&Arc<FontKey>>
        ensures { MatchOption result (key_with self.now number ≡ None)
            (λ key. key_with self.now number ≡ Some (arc_value key.now)) }
    {
        self.keys.get(&number)
    }

    /// Gives the number of a local font this key, in place of the one that it may have.
    pub fn put(&mut self, local: &LocalDef, key: Arc<FontKey>) -> Result<(), NoMemory>
        ensures { OnOk result ((k : ℤ) → key_with self.new k
            ≡ (if is_eq (int_cmp local.now.number k) then Some (arc_value key)
            else key_with self.old k)) }
    {
        self.keys.insert(local.number, key)?;
        Ok(())
    }
}
