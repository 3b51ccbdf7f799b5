//! The local fonts of a virtual font at its size.
ghost use Rattle.std.specs.Prelude.{◌≡◌, ◌≤◌, ◌<◌, ◌^◌, ℤ, All, IfOk, IsFalse, IsTrue, MatchOption};
ghost use Rattle.std.specs.Arc.{arc_value};
ghost use Rattle.std.specs.Option.{option_map};
ghost use Rattle.pixel_round.specs.Preamble.{AreUnits};
ghost use Rattle.vf_reader.specs.Locals.{local_with};
ghost use Rattle.outside.specs.Limits.{SIZES as FONT_SIZES};
ghost use Rattle.font_decode.specs.Fonts.{key_with};
ghost use Rattle.font_decode.specs.Locals.{are_local_sizes, is_local_size, local_key};
ghost use Rattle.font_decode.specs.Reading.{IsLocalDef};

use crate::local_keys::LocalKeys;
use fix_word::{scale, tex_units};
use outside::{FontKey, FontName};
use pixel_round::Units;
use std::alloc::{AllocError as NoMemory, Global};
use std::sync::Arc;
use vf_reader::LocalDef;

// The size of a key is below this number of DVI units, and its design size too.
const SIZES: u32 = 134_217_728;

// The key of a local font in a virtual font of a size, or `None` where its size or its design size
// lies outside 1 to 2^27 - 1.
fn key_of(
    alloc: Global,
    local: &LocalDef,
    size: u32,
    units: &Units,
) -> Result<Option<Arc<FontKey>>, NoMemory>
    requires units { AreUnits units.now }
    requires local { IsLocalDef local.now }
    requires some { 1 ≤ size }
    requires fits { size < FONT_SIZES }
    ensures { IfOk result (λ key. MatchOption key
        (IsFalse (is_local_size units.now size local.now))
        (λ key. IsTrue (is_local_size units.now size local.now)
        × (arc_value key ≡ local_key units.now size local.now))) }
{
    let scaled = scale(local.factor as i32, size);
    let design = tex_units(local.points, units.num, units.den);
    if scaled < 1 || scaled >= i64::from(SIZES) || design < 1 || design >= u64::from(SIZES) {
        return Ok(None);
    }
    let key = FontKey {
        area: local.area,
        name: FontName::new(alloc, local.name.bytes())?,
        size: scaled as u32,
        design: design as u32,
    };
    Ok(Some(Arc::new(alloc, key)?))
}

/// The keys of the local fonts in a virtual font of a size, by their numbers, or `None` where the
/// size or the design size of one lies outside 1 to 2^27 - 1 DVI units.
pub fn local_keys(
    alloc: Global,
    locals: &[LocalDef],
    size: u32,
    units: &Units,
) -> Result<Option<LocalKeys>, NoMemory>
    requires units { AreUnits units.now }
    requires locals { All IsLocalDef locals.now }
    requires some { 1 ≤ size }
    requires fits { size < FONT_SIZES }
    ensures { IfOk result (λ keys. MatchOption keys
        (IsFalse (are_local_sizes units.now size locals.now))
        (λ keys. IsTrue (are_local_sizes units.now size locals.now)
        × ((n : ℤ) → key_with keys n ≡ option_map (local_key units.now size)
        (local_with locals.now n)))) }
{
    let mut keys = LocalKeys::new(alloc);
    for local in locals.iter().rev() {
        match key_of(alloc, local, size, units)? {
            Some(key) => keys.put(local, key)?,
            None => return Ok(None),
        }
    }
    Ok(Some(keys))
}
