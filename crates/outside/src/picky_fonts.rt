//! A font source in memory of which the loads of some files fail.
ghost use Rattle.std.specs.Prelude.{◌≡◌, ◌<◌, ◌^◌, ◌↔◌, [], Some, IfOk, IsErrOf};
ghost use Rattle.std.specs.Io.{StartsWith};
ghost use Rattle.std.specs.Option.{option_map};
ghost use Rattle.outside.specs.Counts.{HasCause, next_count};
ghost use Rattle.outside.specs.Library.{AskedFor, IsFileOf};

use crate::asked_names::AskedNames;
use crate::{FileName, FontName, FontSource, Library, LoadStop};
use std::sync::Arc;

/// A library of which the loads of a file fail where its name begins with `front`.
#[derive(Drop)]
pub struct PickyFonts {
    library: Arc<Library>,
    front: FontName,
    loads: u64,
    faults: u64,
    asked: AskedNames,
    ghost loads_fit: { loads < 2 ^ 64 },
}

impl PickyFonts {
    /// A source of the library's files that fails where a file's name begins with `front`.
    pub fn new(library: Arc<Library>, front: FontName) -> PickyFonts
        ensures library { result.library.value ≡ library.value }
        ensures front { result.front ≡ front }
        ensures unused { (result.loads ≡ 0) × (result.faults ≡ 0) × (result.asked ≡ Some []) }
    {
        let asked = AskedNames::new(library.alloc());
        PickyFonts {
            library,
            front,
            loads: 0,
            faults: 0,
            asked,
        }
    }
}

impl FontSource for PickyFonts {
    ghost library = { λ p. Some p.library.value };

    ghost faults = { λ p. p.faults };

    ghost loads = { λ p. p.loads };

    ghost asked = { λ p. p.asked };

    ghost loads_fit = { λ p. p.loads_fit };

    fn load(&mut self, name: &FileName) -> Result<Option<Vec<u8>>, LoadStop>
        ensures file { IfOk result (λ found. IsFileOf (Some self.old.library.value) name.now
            (option_map (λ bytes. bytes.items) found)) }
        ensures same_library { Some self.new.library.value ≡ Some self.old.library.value }
        ensures cause { HasCause self.old.faults self.new.faults (IsErrOf result LoadStop.Failed) }
        ensures counted { self.new.loads ≡ next_count self.old.loads }
        ensures asked { AskedFor self.old.asked self.new.asked name.now result }

        // Exactly the loads fail of names that begin with the one that was picked.
        ensures picked { (result ≡ Err LoadStop.Failed) ↔ StartsWith name.now self.old.front }
        ensures faulty { result ≡ Err LoadStop.Failed
            → self.new.faults ≡ next_count self.old.faults }
        ensures good { ¬ (result ≡ Err LoadStop.Failed) → self.new.faults ≡ self.old.faults }
        ensures keeps { self.new.front ≡ self.old.front }
    {
        self.loads = self.loads.saturating_add(1);
        let kept = self.asked.add(name);
        if name.bytes().starts_with(self.front.bytes()) {
            self.faults = self.faults.saturating_add(1);
            return Err(LoadStop::Failed);
        }
        kept?;
        Ok(self.library.copy_of(name)?)
    }
}
