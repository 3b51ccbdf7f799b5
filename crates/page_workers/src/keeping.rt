//! How a seat ends a claim.
ghost use Rattle.std.specs.Prelude.{◌≡◌, ◌+◌, ◌^◌, ◌<◌, ◌≤◌, ℕ, Bool, List, [], ◌∷◌, ◌++◌, None, Some, IfOk, OnErr, OnOk, IsErrOf};
ghost use Rattle.std.specs.Arc.{arc_value};
ghost use Rattle.outside.specs.declared.keys.FontKey.{FontKey};
ghost use Rattle.cache_core.specs.Histories.{own, open_claim};
ghost use Rattle.cache_core.specs.States.{call};
ghost use Rattle.cache_core.specs.declared.calls.Done.TheVariants.{Filled, Released};
ghost use Rattle.turn_lock.specs.declared.view.Stage.TheVariants.{Idle};
ghost use Rattle.font_decode.specs.Decoding.{IsFontOf};
ghost use Rattle.font_decode.specs.Desks.{IsWeightIn};

use font_cache::{CacheSeat, FontCache};
use font_decode::{Decoded, DeskStop};
use outside::FontKey;
use std::sync::{Arc, Wait};

/// Fills the claim of a key with its font, and gives the font back. After a fill that runs out of
/// memory it releases the claim and answers `NoMemory`. It waits for each of its turns.
pub fn keep<R: Wait>(
    rt: &R,
    cache: &FontCache<Decoded>,
    seat: &mut CacheSeat<Decoded>,
    key: &Arc<FontKey>,
    font: Arc<Decoded>,
) -> Result<Arc<Decoded>, DeskStop>
    requires lock { seat.old.lock ≡ cache.now }
    requires idle { seat.old.view.stage ≡ Idle }
    requires room { seat.old.view.drawn + 2 ≤ 2 ^ 48 }
    requires claim { open_claim (own seat.old.view.number seat.old.view.seen)
        ≡ Some (arc_value key.now) }
    requires stands { IsFontOf seat.old.view.part.library (Some seat.old.view.part.units)
        (arc_value key.now) (arc_value font) }
    ensures lock { seat.new.lock ≡ seat.old.lock }
    ensures idle { seat.new.view.stage ≡ Idle }
    ensures number { seat.new.view.number ≡ seat.old.view.number }
    ensures drawn { seat.new.view.drawn ≤ seat.old.view.drawn + 2 }
    ensures drawn_once { OnOk result (seat.new.view.drawn ≤ seat.old.view.drawn + 1) }
    ensures part { seat.new.view.part ≡ seat.old.view.part }
    ensures free { open_claim (own seat.old.view.number seat.new.view.seen) ≡ None }
    ensures same { IfOk result (λ kept. arc_value kept ≡ arc_value font) }
    ensures filled { IfOk result (λ _. (weight : ℕ) × (kept : Bool) × (gone : List FontKey)
        × (own seat.old.view.number seat.new.view.seen
        ≡ own seat.old.view.number seat.old.view.seen
        ++ call seat.old.view.number (arc_value key.now) (Filled weight kept gone) ∷ [])
        × IsWeightIn seat.old.view.part (arc_value key.now) weight) }
    ensures released { OnErr result (own seat.old.view.number seat.new.view.seen
        ≡ own seat.old.view.number seat.old.view.seen
        ++ call seat.old.view.number (arc_value key.now) Released ∷ []) }
    ensures memory { OnErr result (IsErrOf result DeskStop.NoMemory) }
{
    if let Ok(kept) = Arc::try_clone(&font) {
        if cache.fill(rt, seat, key, kept).is_ok() {
            return Ok(font);
        }
    }
    cache.release(rt, seat, key);
    Err(DeskStop::NoMemory)
}
