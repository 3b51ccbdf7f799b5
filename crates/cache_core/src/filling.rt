//! How a font is taken in.
ghost use Rattle.std.specs.Prelude.{◌≡◌, ◌+◌, ◌≤◌, [], ◌∷◌, ◌++◌, Some, None, length, map, IsTrue, IsFalse, IfOk, IfErr, OnOk, OnErr};
ghost use Rattle.std.specs.Arc.{arc_value};
ghost use Rattle.std.specs.Vec.{vec_len, vec_capacity};
ghost use Rattle.std.specs.Map.{lookup};
ghost use Rattle.cache_core.specs.declared.calls.Done.TheVariants.{Filled};
ghost use Rattle.cache_core.specs.Limits.{MAX_CACHED_FONTS};
ghost use Rattle.cache_core.specs.Machine.{key_eq, claim_of, weights};
ghost use Rattle.cache_core.specs.Views.{call_of, calls_of, claims_of, fonts_of, weighed, fonts_let_go};
ghost use Rattle.cache_core.specs.States.{machine_of, call, Takes, AddsFont};

use crate::claims::{Claim, end};
use crate::entry::{Act, Entry, Fill, Filling, WeighedFill};
use crate::fonts::{Resident, Stored, store, told};
use crate::keys::Keys;
use crate::limits::Limits;
use crate::stands::Stands;
use outside::FontKey;
use std::sync::Arc;

// The entry of a fill.
fn filled(seat: u32, key: Arc<FontKey>, fill: Box<WeighedFill>) -> Entry
    ensures { call_of result ≡ call seat (arc_value key)
        (Filled fill.value.weight fill.value.kept fill.value.gone) }
{
    let act = Act::Filled(fill);
    Entry { seat, key, act }
}

/// Takes in the font of a claimed key, or not where it is too heavy, and notes it.
pub(crate) fn take_in<T: Stands>(
    resident: &mut Resident<T>,
    claims: &mut Vec<Claim>,
    entries: &mut Vec<Entry>,
    limits: Limits,
    seat: u32,
    key: &Arc<FontKey>,
    value: Arc<T>,
) -> Result<Filling<T>, Arc<T>>
    requires claim { claim_of seat (claims_of claims.old.items) ≡ Some (arc_value key.now) }
    requires missing { lookup (key_eq (arc_value key.now)) (fonts_of resident.old.fonts.entries)
        ≡ None }
    requires some_font { 1 ≤ limits.capacity }
    requires few_fonts { limits.capacity ≤ MAX_CACHED_FONTS }
    requires places { resident.old.fonts.cap ≡ limits.capacity + 1 }
    requires few { length resident.old.fonts.entries ≤ limits.capacity }
    requires total { resident.old.total
        ≡ weights (weighed T.weighs (fonts_of resident.old.fonts.entries)) }
    requires room { vec_len entries.old + vec_len claims.old ≤ vec_capacity entries.old }
    ensures taken { IfOk result (λ f. Takes limits
        (machine_of T.weighs (fonts_of resident.old.fonts.entries) (claims_of claims.old.items))
        (machine_of T.weighs (fonts_of resident.new.fonts.entries) (claims_of claims.new.items))
        (call seat (arc_value key.now)
        (Filled (T.weighs (arc_value value)) f.fill.kept f.fill.gone))) }
    ensures noted { IfOk result (λ f. calls_of entries.new.items
        ≡ calls_of entries.old.items ++ call seat (arc_value key.now)
        (Filled (T.weighs (arc_value value)) f.fill.kept f.fill.gone) ∷ []) }
    ensures fonts { IfOk result (λ _. AddsFont (arc_value key.now) (arc_value value)
        (fonts_of resident.old.fonts.entries) (fonts_of resident.new.fonts.entries)) }
    ensures stored { IfOk result (λ f. IsTrue f.fill.kept
        → lookup (key_eq (arc_value key.now)) (fonts_of resident.new.fonts.entries)
        ≡ Some (arc_value value)) }
    ensures left_out { IfOk result (λ f. IsFalse f.fill.kept
        → resident.new.fonts ≡ resident.old.fonts) }
    ensures handed_out { IfOk result (λ f. map arc_value f.fonts.items ≡ fonts_let_go
        limits T.weighs f.fill.kept (arc_value key.now) (arc_value value)
        (fonts_of resident.old.fonts.entries)) }
    ensures total { resident.new.total
        ≡ weights (weighed T.weighs (fonts_of resident.new.fonts.entries)) }
    ensures back { IfErr result (λ handed. handed ≡ value) }
    ensures same { OnErr result ((resident.new.fonts ≡ resident.old.fonts)
        × (claims.new.items ≡ claims.old.items) × (entries.new.items ≡ entries.old.items)) }
    ensures capacity { resident.new.fonts.cap ≡ resident.old.fonts.cap }
    ensures can_end { vec_len entries.new + vec_len claims.new ≤ vec_capacity entries.new }
{
    let alloc = *entries.allocator();
    let weight = value.weight();
    if limits.budget < weight {
        let mut fonts = Vec::new(alloc);
        let Ok(()) = fonts.reserve(1) else {
            return Err(value);
        };
        let Ok(noted) = told(alloc, weight, false, Vec::new(alloc)) else {
            return Err(value);
        };
        fonts.push_reserved(value);
        let key = end(claims, seat);
        entries.push_reserved(filled(seat, key, noted));
        return Ok(Filling {
            fill: Fill {
                kept: false,
                gone: Keys::new(Vec::new(alloc)),
            },
            fonts,
        });
    }
    let stored = store(alloc, resident, limits, key, value, weight)?;
    let Stored {
        noted,
        answered,
        left,
    } = stored;
    let key = end(claims, seat);
    entries.push_reserved(filled(seat, key, noted));
    Ok(Filling {
        fill: Fill {
            kept: true,
            gone: answered,
        },
        fonts: left,
    })
}
