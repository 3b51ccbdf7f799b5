//! Where font files come from.
ghost use Rattle.std.specs.Prelude.{◌≡◌, ◌<◌, ◌^◌, ℕ, List, Option, None, IfOk, IsErrOf};
ghost use Rattle.std.specs.Option.{option_map};
ghost use Rattle.outside.specs.Counts.{HasCause, next_count};
ghost use Rattle.outside.specs.Library.{AskedFor, FileTable, IsFileOf};

use crate::FileName;
use std::alloc::AllocError;

/// Why a file was not loaded.
#[derive(Clone, Copy, Debug, PartialEq, Eq, thiserror::Error)]
pub enum LoadStop {
    /// The source failed, as a disk may.
    #[error("a font file could not be read")]
    Failed,
    /// Out of memory.
    #[error("out of memory")]
    NoMemory,
}

impl From<AllocError> for LoadStop {
    ghost use Rattle.std.specs.Prelude.{◌≡◌};
    ghost use Rattle.outside.specs.declared.fonts.LoadStop.TheVariants.{NoMemory};

    ghost from_gives = { λ _ e. e ≡ NoMemory };

    fn from(_: AllocError) -> LoadStop {
        LoadStop::NoMemory
    }
}

/// Where font files come from.
pub trait FontSource: Drop {
    /// All the files, where they are known. No call changes them.
    ghost library: { Self → Option FileTable } = { λ _. None };

    /// How often it failed.
    ghost faults: { Self → ℕ };

    /// How often a file was asked for.
    ghost loads: { Self → ℕ };

    /// The names that were asked for, in order, where they are known.
    ghost asked: { Self → Option (List (List ℕ)) } = { λ _. None };

    /// The bytes of the file of this name, or `None` where there is no such file.
    fn load(&mut self, name: &FileName) -> Result<Option<Vec<u8>>, LoadStop>
        ensures file { IfOk result (λ found.
            IsFileOf (library self.old) name.now (option_map (λ bytes. bytes.items) found)) }
        ensures same_library { library self.new ≡ library self.old }
        ensures cause { HasCause (faults self.old) (faults self.new)
            (IsErrOf result LoadStop.Failed) }
        ensures counted { loads self.new ≡ next_count (loads self.old) }
        ensures asked { AskedFor (asked self.old) (asked self.new) name.now result };

    /// A count of loads is a number of 64 bits, so that it never falls.
    ghost loads_fit: { (s : Self) → loads s < 2 ^ 64 };
}
