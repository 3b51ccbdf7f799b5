//! The claims of seats on keys: few, since a seat holds at most one.
ghost use Rattle.std.specs.Prelude.{◌≡◌, ◌+◌, ◌∷◌, Some, nat_eq, IsSome, OnOk, OnErr};
ghost use Rattle.std.specs.Arc.{arc_value};
ghost use Rattle.std.specs.Vec.{vec_len};
ghost use Rattle.std.specs.Map.{lookup, remove_entry};
ghost use Rattle.cache_core.specs.Machine.{claims_key};
ghost use Rattle.cache_core.specs.Views.{claims_of};

use crate::key_test::same_key;
use outside::FontKey;
use std::alloc::AllocError as NoMemory;
use std::sync::Arc;

// A seat and the key that it claims.
#[derive(Drop)]
pub(crate) struct Claim {
    pub(crate) seat: u32,
    pub(crate) key: Arc<FontKey>,
}

// Whether a seat claims the key.
pub(crate) fn is_claimed(claims: &[Claim], key: &Arc<FontKey>) -> bool
    ensures { result ≡ claims_key (arc_value key.now) (claims_of claims.now) }
{
    for claim in claims {
        if same_key(key, &claim.key) {
            return true;
        }
    }
    false
}

// Adds a claim.
pub(crate) fn add_claim(
    claims: &mut Vec<Claim>,
    seat: u32,
    key: &Arc<FontKey>,
) -> Result<(), NoMemory>
    ensures added { OnOk result (claims_of claims.new.items ≡ (seat, arc_value key.now)
        ∷ claims_of claims.old.items) }
    ensures more { OnOk result (vec_len claims.new ≡ vec_len claims.old + 1) }
    ensures same { OnErr result ((claims.new.items ≡ claims.old.items) ×
        (vec_len claims.new ≡ vec_len claims.old)) }
{
    let key = Arc::try_clone(key)?;
    claims.insert(0, Claim { seat, key })?;
    Ok(())
}

// Ends the seat's claim, and gives the key that it named.
pub(crate) fn end(claims: &mut Vec<Claim>, seat: u32) -> Arc<FontKey>
    requires { IsSome (lookup (nat_eq seat) (claims_of claims.old.items)) }
    ensures key { lookup (nat_eq seat) (claims_of claims.old.items) ≡ Some (arc_value result) }
    ensures rest { claims_of claims.new.items ≡ remove_entry (nat_eq seat)
        (claims_of claims.old.items) }
    ensures fewer { vec_len claims.new + 1 ≡ vec_len claims.old }
{
    for at in 0..claims.len() {
        if seat == claims[at].seat {
            return claims.remove(at).key;
        }
    }
    unreachable!()
}
