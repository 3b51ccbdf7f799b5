//! The font of a key, from its files.
ghost use Rattle.std.specs.Prelude.{◌≡◌, Some, length, IfOk, IfSome, IsErrOf, OnOk};
ghost use Rattle.std.specs.Arc.{arc_value};
ghost use Rattle.outside.specs.Counts.{HasCause};
ghost use Rattle.outside.specs.FontKeys.{IsFontKey};
ghost use Rattle.pixel_round.specs.Preamble.{AreUnits};
ghost use Rattle.font_decode.specs.Decoding.{IsFontOf};
ghost use Rattle.font_decode.specs.Files.{looked_for};
ghost use Rattle.font_decode.specs.Loads.{RoseBy, RoseUpTo, MAX_LOADS};

use crate::loading::fetch;
use crate::{Decoded, DeskStop, decode};
use outside::{FontKey, FontSource};
use pixel_round::Units;
use std::alloc::Global;
use std::sync::Arc;

/// Fetches and decodes the font of a key, by eight loads at most, and where the library is known by
/// those of the files that are looked for. A fault of the font is an answer. `SourceFault` comes
/// only where the source failed in this call, and `NoMemory` where memory ran out.
pub fn load<F: FontSource>(
    alloc: Global,
    source: &mut F,
    key: &Arc<FontKey>,
    units: &Units,
) -> Result<Arc<Decoded>, DeskStop>
    requires units { AreUnits units.now }
    requires key { IsFontKey (arc_value key.now) }
    ensures found { IfOk result (λ font.
        IsFontOf (F.library source.old) (Some units.now) (arc_value key.now) (arc_value font)) }
    ensures library { F.library source.new ≡ F.library source.old }
    ensures cause { HasCause (F.faults source.old) (F.faults source.new)
        (IsErrOf result DeskStop.SourceFault) }
    ensures loads { RoseUpTo MAX_LOADS (F.loads source.old) (F.loads source.new) }
    ensures files { OnOk result (IfSome (F.library source.old) (λ l.
        RoseBy (length (looked_for l units.now (arc_value key.now))) (F.loads source.old)
        (F.loads source.new))) }
    ensures no_more { IfSome (F.library source.old) (λ l.
        RoseUpTo (length (looked_for l units.now (arc_value key.now))) (F.loads source.old)
        (F.loads source.new)) }
{
    let files = fetch(alloc, source, key, units)?;
    let decoded = decode(alloc, key, &files, units)?;
    Ok(Arc::new(alloc, decoded)?)
}
