//! How a look is answered.
ghost use Rattle.std.specs.Prelude.{◌≡◌, ◌+◌, ◌≤◌, [], ◌∷◌, ◌++◌, None, IfOk, OnErr};
ghost use Rattle.std.specs.Arc.{arc_value};
ghost use Rattle.std.specs.Vec.{vec_len, vec_capacity};
ghost use Rattle.std.specs.Map.{lookup};
ghost use Rattle.cache_core.specs.declared.limits.Limits.{Limits};
ghost use Rattle.cache_core.specs.Machine.{key_eq, claim_of, weights};
ghost use Rattle.cache_core.specs.Views.{calls_of, claims_of, fonts_of, weighed};
ghost use Rattle.cache_core.specs.States.{machine_of, call, answered, GivesFont, Takes, SameFonts};

use crate::claims::{Claim, add_claim, is_claimed};
use crate::entry::{Act, Entry, Look};
use crate::fonts::{Fonts, find};
use crate::stands::Stands;
use outside::FontKey;
use std::alloc::AllocError as NoMemory;
use std::sync::Arc;

/// Answers a look, and notes it.
pub(crate) fn answer<T: Stands>(
    resident: &mut Fonts<T>,
    claims: &mut Vec<Claim>,
    entries: &mut Vec<Entry>,
    seat: u32,
    key: &Arc<FontKey>,
) -> Result<Look<T>, NoMemory>
    requires free { claim_of seat (claims_of claims.old.items) ≡ None }
    requires room { vec_len entries.old + vec_len claims.old ≤ vec_capacity entries.old }
    ensures taken { IfOk result (λ reply. (limits : Limits) → Takes limits
        (machine_of T.weighs (fonts_of resident.old.entries) (claims_of claims.old.items))
        (machine_of T.weighs (fonts_of resident.new.entries) (claims_of claims.new.items))
        (call seat (arc_value key.now) (answered reply))) }
    ensures noted { IfOk result (λ reply. calls_of entries.new.items
        ≡ calls_of entries.old.items ++ call seat (arc_value key.now) (answered reply) ∷ []) }
    ensures font { IfOk result (λ reply. GivesFont reply
        (lookup (key_eq (arc_value key.now)) (fonts_of resident.old.entries))) }
    ensures fonts { IfOk result (λ _. SameFonts (fonts_of resident.old.entries)
        (fonts_of resident.new.entries)) }
    ensures total { weights (weighed T.weighs (fonts_of resident.new.entries))
        ≡ weights (weighed T.weighs (fonts_of resident.old.entries)) }
    ensures same { OnErr result ((resident.new ≡ resident.old)
        × (claims.new.items ≡ claims.old.items) × (entries.new.items ≡ entries.old.items)) }
    ensures capacity { resident.new.cap ≡ resident.old.cap }
    ensures can_end { vec_len entries.new + vec_len claims.new ≤ vec_capacity entries.new }
{
    // Room for this entry, for the claim, and for the entry that ends the claim.
    entries.reserve(claims.len() + 2)?;
    let noted = Arc::try_clone(key)?;
    if let Some(font) = find(resident, key)? {
        entries.push_reserved(Entry {
            seat,
            key: noted,
            act: Act::Hit,
        });
        return Ok(Look::Hit(font));
    }
    if is_claimed(claims, key) {
        entries.push_reserved(Entry {
            seat,
            key: noted,
            act: Act::Busy,
        });
        return Ok(Look::Busy);
    }
    add_claim(claims, seat, key)?;
    entries.push_reserved(Entry {
        seat,
        key: noted,
        act: Act::Claimed,
    });
    Ok(Look::Claimed)
}
