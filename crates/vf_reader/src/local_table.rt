//! The table of a font's local fonts.
ghost use Rattle.std.specs.Prelude.{◌≡◌, ◌++◌, ◌∷◌, [], ℤ, IfOk, MatchOption, None, OnOk, Some, if◌then◌else◌};
ghost use Rattle.std.specs.Ordering.{int_cmp, is_eq};
ghost use Rattle.big_endian.specs.Numbers.{IsSigned};
ghost use Rattle.vf_reader.specs.Locals.{local_with};
ghost use Rattle.vf_reader.specs.Places.{place_at};

use crate::LocalDef;
use std::alloc::{AllocError as NoMemory, Global};
use std::collections::BTreeMap;
use std::marker::Model;

/// Local fonts, each number once, and the place of each number. A contract sees it as the list.
#[derive(Drop)]
pub struct LocalTable {
    list: Vec<LocalDef>,
    places: BTreeMap<i32, usize>,
}

impl Model for LocalTable {
    ghost use Rattle.std.specs.Prelude.{List};
    ghost use Rattle.vf_reader.specs.Places.{ArePlaces};
    ghost use Rattle.vf_reader.specs.declared.locals.LocalDef.{LocalDef};

    ghost Value = { List LocalDef };

    ghost view = { λ t. t.list.items };

    ghost invariant = { λ t. ArePlaces t.places.entries t.list.items };
}

// Gives a number its place.
fn put(places: &mut BTreeMap<i32, usize>, number: i32, place: usize) -> Result<(), NoMemory>
    ensures { OnOk result ((k : ℤ) → place_at places.new.entries k
        ≡ (if is_eq (int_cmp number k) then Some place else place_at places.old.entries k)) }
{
    places.insert(number, place)?;
    Ok(())
}

impl LocalTable {
    /// No local font.
    pub fn new(alloc: Global) -> LocalTable
        ensures { result ≡ [] }
    {
        LocalTable {
            list: Vec::new(alloc),
            places: BTreeMap::new(alloc),
        }
    }

    /// The local fonts, in the order in which they were added.
    pub fn list(&self) -> &[LocalDef]
        ensures { result.now ≡ self.now }
    {
        &self.list
    }

    /// The local font with this number.
    pub fn get(&self, number: i32) -> Option<&LocalDef>
        ensures { MatchOption result (local_with self.now number ≡ None)
            (λ local. local_with self.now number ≡ Some local.now) }
    {
        match self.places.get(&number) {
            Some(place) => Some(&self.list[*place]),
            None => None,
        }
    }

    /// These and one more, whose number isn't there.
    pub fn with(self, local: LocalDef) -> Result<LocalTable, NoMemory>
        requires fits { IsSigned 4 local.number }
        requires absent { local_with self local.number ≡ None }
        ensures { IfOk result (λ table. table ≡ self ++ local ∷ []) }
    {
        let LocalTable {
            mut list,
            mut places,
        } = self;
        put(&mut places, local.number, list.len())?;
        list.push(local)?;
        Ok(LocalTable { list, places })
    }
}
