//! Files that are opened by their names as a source of fonts.
ghost use Rattle.std.specs.Prelude.{◌≡◌, ◌<◌, ◌^◌, None, Err, IfOk, IsErrOf};
ghost use Rattle.std.specs.Option.{option_map};
ghost use Rattle.outside.specs.Counts.{HasCause, next_count};
ghost use Rattle.outside.specs.Library.{AskedFor, IsFileOf};
ghost use Rattle.real_streams.specs.Files.{cut_files};

use crate::opener::{Opener, load_file};
use outside::{FileName, FontSource, LoadStop};
use std::alloc::Global;

/// The font files of an opener. A file that the opener doesn't find is answered with `None`; every
/// other error, of opening or of reading, is a failure, and is counted.
#[derive(Drop)]
pub struct OpenedFonts<O> {
    alloc: Global,
    opener: O,
    faults: u64,
    loads: u64,
    ghost loads_fit: { loads < 2 ^ 64 },
}

impl<O: Opener> OpenedFonts<O> {
    /// No file was asked for yet.
    pub fn over(alloc: Global, opener: O) -> OpenedFonts<O>
        ensures opener { result.opener ≡ opener }
        ensures faults { result.faults ≡ 0 }
        ensures loads { result.loads ≡ 0 }
    {
        OpenedFonts {
            alloc,
            opener,
            faults: 0,
            loads: 0,
        }
    }
}

impl<O: Opener> FontSource for OpenedFonts<O> {
    ghost library = { λ s. option_map cut_files (O.files s.opener) };

    ghost faults = { λ s. s.faults };

    ghost loads = { λ s. s.loads };

    ghost loads_fit = { λ s. s.loads_fit };

    fn load(&mut self, name: &FileName) -> Result<Option<Vec<u8>>, LoadStop>
        ensures file { IfOk result (λ found. IsFileOf (option_map cut_files
            (O.files self.old.opener)) name.now (option_map (λ bytes. bytes.items) found)) }
        ensures same_library { option_map cut_files (O.files self.new.opener)
            ≡ option_map cut_files (O.files self.old.opener) }
        ensures cause { HasCause self.old.faults self.new.faults (IsErrOf result LoadStop.Failed) }
        ensures counted { self.new.loads ≡ next_count self.old.loads }
        ensures asked { AskedFor None None name.now result }

        // Each failure counts once.
        ensures faulty { result ≡ Err LoadStop.Failed
            → self.new.faults ≡ next_count self.old.faults }
        ensures good { ¬ (result ≡ Err LoadStop.Failed) → self.new.faults ≡ self.old.faults }
    {
        self.loads = self.loads.saturating_add(1);
        match load_file(self.alloc, &self.opener, name) {
            Err(LoadStop::Failed) => {
                self.faults = self.faults.saturating_add(1);
                Err(LoadStop::Failed)
            }
            loaded => loaded,
        }
    }
}
