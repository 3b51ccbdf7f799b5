//! How the one seat of a cache ends its claim.
ghost use Rattle.std.specs.Prelude.{◌≡◌, ◌+◌, ◌^◌, ◌≤◌, Bool, List, [], ◌∷◌, ◌++◌, Some, IfOk, OnErr, IsErrOf, nat_eq};
ghost use Rattle.std.specs.Arc.{arc_value};
ghost use Rattle.std.specs.Map.{remove_entry};
ghost use Rattle.outside.specs.declared.keys.FontKey.{FontKey};
ghost use Rattle.cache_core.specs.declared.common.Common.{Common};
ghost use Rattle.cache_core.specs.declared.calls.Done.TheVariants.{Filled, Released};
ghost use Rattle.cache_core.specs.Machine.{claim_of};
ghost use Rattle.cache_core.specs.States.{call, StateStands};
ghost use Rattle.font_decode.specs.Decoding.{IsFontOf};
ghost use Rattle.font_decode.specs.Weights.{weight_of};
ghost use Rattle.page_draw.specs.SoloDesks.{stands_for_key};

use cache_core::CacheState;
use font_decode::{Decoded, DeskStop};
use outside::FontKey;
use std::sync::Arc;

/// Hands the font of the claimed key in, and gives it back; where memory runs out it gives the
/// claim up.
pub fn keep(
    cache: &mut CacheState<Decoded>,
    key: &Arc<FontKey>,
    font: Arc<Decoded>,
) -> Result<Arc<Decoded>, DeskStop>
    requires few { cache.old.turns + 2 ≤ 2 ^ 62 }
    requires claim { claim_of 1 cache.old.claims ≡ Some (arc_value key.now) }
    ensures turns { cache.new.turns ≤ cache.old.turns + 2 }
    ensures limits { cache.new.limits ≡ cache.old.limits }
    ensures claims { cache.new.claims ≡ remove_entry (nat_eq 1) cache.old.claims }
    ensures same { IfOk result (λ kept. arc_value kept ≡ arc_value font) }
    ensures filled { IfOk result (λ _. (kept : Bool) × (gone : List FontKey)
        × (cache.new.history ≡ cache.old.history ++ call 1 (arc_value key.now)
        (Filled (weight_of (arc_value font)) kept gone) ∷ [])) }
    ensures released { OnErr result (cache.new.history ≡ cache.old.history ++ call 1
        (arc_value key.now) Released ∷ []) }
    ensures stands { (part : Common) → StateStands stands_for_key weight_of cache.old part
        → IsFontOf part.library (Some part.units) (arc_value key.now) (arc_value font)
        → StateStands stands_for_key weight_of cache.new part }
    ensures memory { OnErr result (IsErrOf result DeskStop.NoMemory) }
{
    if let Ok(kept) = Arc::try_clone(&font) {
        if cache.fill(1, key, kept).is_ok() {
            return Ok(font);
        }
    }
    cache.release(1, key);
    Err(DeskStop::NoMemory)
}
