//! Fetches from sources of other kinds.
ghost use Rattle.std.specs.Prelude.{◌<◌, ◌^◌};

use super::{UNITS, key, library};
use font_decode::{Files, fetch};
use outside::{FileName, FontSource, Library, LoadStop, SureFonts};
use std::alloc::Global;
use std::sync::Arc;
use std::test::Fail;

// A source with a TFM file, and with the file of the load numbered `glyphs_at`, from 1. The load
// numbered `fails` wants memory. It hears whether the names come in this order.
#[derive(Drop)]
struct Listening {
    alloc: Global,
    order: &'static [&'static [u8]; 8],
    glyphs_at: u64,
    fails: u64,
    loads: u64,
    in_order: bool,
    ghost loads_fit: { loads < 2 ^ 64 },
}

impl FontSource for Listening {
    ghost faults = { λ _. 0 };

    ghost loads = { λ s. s.loads };

    ghost loads_fit = { λ s. s.loads_fit };

    fn load(&mut self, name: &FileName) -> Result<Option<Vec<u8>>, LoadStop> {
        let at = self.loads.min(7) as usize;
        self.in_order = self.in_order && name.bytes() == self.order[at];
        self.loads = self.loads.saturating_add(1);
        if self.loads == self.fails {
            return Err(LoadStop::NoMemory);
        }
        if self.loads == 1 || self.loads == self.glyphs_at {
            return Ok(Some(Vec::new(self.alloc)));
        }
        Ok(None)
    }
}

const AT_300: [&[u8]; 8] = [
    b"dot.tfm",
    b"dot.vf",
    b"dot.300pk",
    b"dot.301pk",
    b"dot.299pk",
    b"dot.300gf",
    b"dot.301gf",
    b"dot.299gf",
];

const AT_600: [&[u8]; 8] = [
    b"dot.tfm",
    b"dot.vf",
    b"dot.600pk",
    b"dot.601pk",
    b"dot.599pk",
    b"dot.600gf",
    b"dot.601gf",
    b"dot.599gf",
];

// How a fetch stops, how many loads there were, whether a PK or GF file was found, and whether the
// names came in their order.
type Heard = (Option<LoadStop>, u64, bool, bool);

const NO_MEMORY: Option<LoadStop> = Some(LoadStop::NoMemory);

// The size of `dot`, the names, `glyphs_at` and `fails`, and what is heard.
static HEARD: [(u32, &'static [&'static [u8]; 8], u64, u64, Heard); 15] = [
    (128, &AT_300, 3, 0, (None, 3, true, true)),
    (128, &AT_300, 4, 0, (None, 4, true, true)),
    (128, &AT_300, 5, 0, (None, 5, true, true)),
    (128, &AT_300, 6, 0, (None, 6, true, true)),
    (128, &AT_300, 7, 0, (None, 7, true, true)),
    (128, &AT_300, 8, 0, (None, 8, true, true)),
    (128, &AT_300, 9, 0, (None, 8, false, true)),
    (256, &AT_600, 0, 1, (NO_MEMORY, 1, false, true)),
    (256, &AT_600, 0, 2, (NO_MEMORY, 2, false, true)),
    (256, &AT_600, 0, 3, (NO_MEMORY, 3, false, true)),
    (256, &AT_600, 0, 4, (NO_MEMORY, 4, false, true)),
    (256, &AT_600, 0, 5, (NO_MEMORY, 5, false, true)),
    (256, &AT_600, 0, 6, (NO_MEMORY, 6, false, true)),
    (256, &AT_600, 0, 7, (NO_MEMORY, 7, false, true)),
    (256, &AT_600, 0, 8, (NO_MEMORY, 8, false, true)),
];

// What a fetch of `dot` at a size comes to.
fn heard(source: &mut Listening, size: u32) -> Result<Heard, Fail> {
    let alloc = source.alloc;
    let fetched = fetch(alloc, source, &key(alloc, &(b"dot", size, 128))?, &UNITS);
    let (stop, is_found) = match &fetched {
        Ok(files) => (None, files.pk.is_some() || files.gf.is_some()),
        Err(stop) => (Some(*stop), false),
    };
    Ok((stop, source.loads, is_found, source.in_order))
}

#[test]
fn files_are_asked_for_in_order(rt: HostRuntime) -> Result<(), Fail> {
    for (row, (size, order, glyphs_at, fails, want)) in HEARD.iter().enumerate() {
        let mut source = Listening {
            alloc: rt.alloc(),
            order: *order,
            glyphs_at: *glyphs_at,
            fails: *fails,
            loads: 0,
            in_order: true,
        };
        assert_eq!(rt; heard(&mut source, *size)?, *want, "row {row}");
    }
    Ok(())
}

// What a source that never fails has of `dot`.
fn sure_files(alloc: Global, library: Arc<Library>) -> Result<Files, Fail> {
    let mut source = SureFonts::new(library);
    Ok(fetch(
        alloc,
        &mut source,
        &key(alloc, &(b"dot", 128, 128))?,
        &UNITS,
    )?)
}

#[test]
fn a_source_that_never_fails(rt: HostRuntime) -> Result<(), Fail> {
    let there = library(rt.alloc(), &["dot.tfm", "dot.300pk"])?;
    let found = sure_files(rt.alloc(), there)?.pk;
    assert_eq!(rt; found.as_deref(), Some(b"dot.300pk".as_slice()));
    Ok(())
}

#[test]
fn a_file_of_any_length_is_loaded(rt: HostRuntime) -> Result<(), Fail> {
    let mut library = Library::new(rt.alloc());
    let long = vec![in rt.alloc(); 0u8; 8_388_609]?;
    library.add(FileName::new(rt.alloc(), b"dot.tfm")?, long)?;
    let found = sure_files(rt.alloc(), Arc::new(rt.alloc(), library)?)?.tfm;
    assert_eq!(rt; found.map(|tfm| tfm.len()), Some(8_388_609));
    Ok(())
}
