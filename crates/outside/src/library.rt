//! Font files in memory.
ghost use Rattle.std.specs.Prelude.{◌≡◌, IfOk, OnErr, OnOk};
ghost use Rattle.std.specs.Option.{option_map};
ghost use Rattle.std.specs.FinMap as map;

use crate::FileName;
use std::alloc::{AllocError as NoMemory, Global};
use std::collections::BTreeMap;
use std::marker::Model;

/// Files by their names. A contract sees it as a finite map from names to bytes.
#[derive(Drop)]
pub struct Library {
    alloc: Global,
    files: BTreeMap<FileName, Vec<u8>>,
}

impl Model for Library {
    ghost use Rattle.std.specs.Prelude.{map as each};
    ghost use Rattle.std.specs.FinMap as map;
    ghost use Rattle.std.specs.Coded.{coded_list, coded_ℕ};
    ghost use Rattle.outside.specs.Library.{FileTable};

    ghost Value = { FileTable };

    ghost coded = { map.code (coded_list coded_ℕ) (coded_list coded_ℕ) };

    ghost view = { λ l. map.from_entries (each (λ file. (file.0, file.1.items)) l.files.entries) };
}

impl Library {
    /// No file.
    pub fn new(alloc: Global) -> Library
        ensures { result ≡ map.empty }
    {
        Library {
            alloc,
            files: BTreeMap::new(alloc),
        }
    }

    /// Adds a file. It takes the place of one that has the same name.
    pub fn add(&mut self, name: FileName, bytes: Vec<u8>) -> Result<(), NoMemory>
        ensures ok { OnOk result (self.new ≡ map.insert self.old name bytes.items) }
        ensures err { OnErr result (self.new ≡ self.old) }
    {
        self.files.insert(name, bytes)?;
        Ok(())
    }

    // Where its memory comes from.
    pub(crate) fn alloc(&self) -> Global {
        self.alloc
    }

    // The file of this name.
    fn file(&self, name: &FileName) -> Option<&Vec<u8>>
        ensures { option_map (λ bytes. bytes.now.items) result ≡ map.get self.now name.now }
    {
        self.files.get(name)
    }

    /// The bytes of the file of this name.
    pub fn get(&self, name: &FileName) -> Option<&[u8]>
        ensures { option_map (λ bytes. bytes.now) result ≡ map.get self.now name.now }
    {
        match self.file(name) {
            Some(bytes) => Some(bytes),
            None => None,
        }
    }

    /// A copy of the bytes of the file of this name.
    pub fn copy_of(&self, name: &FileName) -> Result<Option<Vec<u8>>, NoMemory>
        ensures { IfOk result (λ found.
            option_map (λ bytes. bytes.items) found ≡ map.get self.now name.now) }
    {
        match self.file(name) {
            Some(bytes) => Ok(Some(bytes.clone()?)),
            None => Ok(None),
        }
    }
}
