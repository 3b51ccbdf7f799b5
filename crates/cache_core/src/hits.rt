//! How several hits are noted in one turn.
ghost use Rattle.std.specs.Prelude.{◌≡◌, ℕ, ◌+◌, ◌≤◌, List, ◌∷◌, None, length, map, IsTrue, IfSome, IfNone, OnOk, OnErr};
ghost use Rattle.std.specs.Option.{is_some};
ghost use Rattle.std.specs.Arc.{arc_value};
ghost use Rattle.std.specs.Vec.{vec_len, vec_capacity};
ghost use Rattle.std.specs.Map.{lookup};
ghost use Rattle.lru.specs.LruCache.{promoted};
ghost use Rattle.outside.specs.declared.keys.FontKey.{FontKey};
ghost use Rattle.cache_core.specs.declared.limits.Limits.{Limits};
ghost use Rattle.cache_core.specs.Hits.{NotedHits, FirstIsMissing};
ghost use Rattle.cache_core.specs.Machine.{claim_of, weights};
ghost use Rattle.cache_core.specs.Views.{calls_of, fonts_of, weighed, passes};
ghost use Rattle.cache_core.specs.States.{machine_of, SameFonts};

use crate::entry::{Act, Entry};
use crate::fonts::{Fonts, newest};
use crate::stands::Stands;
use outside::FontKey;
use std::alloc::AllocError as NoMemory;
use std::collections::VecDeque;
use std::sync::Arc;

// Whether the font of this key is resident. Where it is, it becomes the newest.
fn make_newest<T: Drop>(fonts: &mut Fonts<T>, key: &Arc<FontKey>) -> bool
    ensures found { result ≡ is_some (lookup (passes (arc_value key.now)) fonts.old.entries) }
    ensures moved { fonts.new.entries ≡ promoted (passes (arc_value key.now)) fonts.old.entries }
    ensures capacity { fonts.new.cap ≡ fonts.old.cap }
{
    match newest(fonts, key) {
        Some(_) => true,
        None => fonts.promote(key),
    }
}

// Takes the first key out of the list where its font is resident, which becomes the newest.
fn next_found<T: Stands>(
    fonts: &mut Fonts<T>,
    keys: &mut VecDeque<Arc<FontKey>>,
) -> Option<Arc<FontKey>>
    ensures found { IfSome result (λ key. IsTrue (is_some
        (lookup (passes (arc_value key)) fonts.old.entries))) }
    ensures moved { IfSome result (λ key. fonts.new.entries
        ≡ promoted (passes (arc_value key)) fonts.old.entries) }
    ensures taken_out { IfSome result (λ key. keys.old.items ≡ key ∷ keys.new.items) }
    ensures stops { IfNone result (FirstIsMissing (map arc_value keys.new.items)
        (weighed T.weighs (fonts_of fonts.new.entries))) }
    ensures same { IfNone result ((fonts_of fonts.new.entries ≡ fonts_of fonts.old.entries)
        × (keys.new.items ≡ keys.old.items)) }
    ensures capacity { fonts.new.cap ≡ fonts.old.cap }
{
    if !make_newest(fonts, keys.front()?) {
        return None;
    }
    keys.pop_front()
}

// Notes the first keys of the list whose fonts are resident, into room that is there.
fn note_found<T: Stands>(
    fonts: &mut Fonts<T>,
    entries: &mut Vec<Entry>,
    seat: u32,
    keys: &mut VecDeque<Arc<FontKey>>,
)
    requires room { vec_len entries.old + length keys.old.items ≤ vec_capacity entries.old }
    ensures noted { (limits : Limits) (claims : List (ℕ × FontKey)) → claim_of seat claims ≡ None
        → NotedHits limits seat
        (machine_of T.weighs (fonts_of fonts.old.entries) claims)
        (machine_of T.weighs (fonts_of fonts.new.entries) claims)
        (calls_of entries.old.items) (calls_of entries.new.items)
        (map arc_value keys.old.items) (map arc_value keys.new.items) }
    ensures stops { FirstIsMissing (map arc_value keys.new.items)
        (weighed T.weighs (fonts_of fonts.new.entries)) }
    ensures fonts { SameFonts (fonts_of fonts.old.entries) (fonts_of fonts.new.entries) }
    ensures total { weights (weighed T.weighs (fonts_of fonts.new.entries))
        ≡ weights (weighed T.weighs (fonts_of fonts.old.entries)) }
    ensures capacity { fonts.new.cap ≡ fonts.old.cap }
    ensures few { vec_len entries.new ≤ vec_len entries.old + length keys.old.items }
    ensures room { vec_capacity entries.new ≡ vec_capacity entries.old }
{
    while let Some(key) = next_found(fonts, keys) {
        let act = Act::Hit;
        entries.push_reserved(Entry { seat, key, act });
    }
}

/// Notes, from the front of the list on, the keys whose fonts are resident, and takes them out of
/// it. So many claims are held: room is left for the entries that end them.
pub(crate) fn note_all<T: Stands>(
    fonts: &mut Fonts<T>,
    entries: &mut Vec<Entry>,
    held: usize,
    seat: u32,
    keys: &mut VecDeque<Arc<FontKey>>,
) -> Result<(), NoMemory>
    requires room { vec_len entries.old + held ≤ vec_capacity entries.old }
    ensures noted { OnOk result ((limits : Limits) (claims : List (ℕ × FontKey))
        → claim_of seat claims ≡ None → NotedHits limits seat
        (machine_of T.weighs (fonts_of fonts.old.entries) claims)
        (machine_of T.weighs (fonts_of fonts.new.entries) claims)
        (calls_of entries.old.items) (calls_of entries.new.items)
        (map arc_value keys.old.items) (map arc_value keys.new.items)) }
    ensures stops { OnOk result (FirstIsMissing (map arc_value keys.new.items)
        (weighed T.weighs (fonts_of fonts.new.entries))) }
    ensures fonts { OnOk result (SameFonts (fonts_of fonts.old.entries)
        (fonts_of fonts.new.entries)) }
    ensures total { weights (weighed T.weighs (fonts_of fonts.new.entries))
        ≡ weights (weighed T.weighs (fonts_of fonts.old.entries)) }
    ensures same { OnErr result ((fonts.new ≡ fonts.old) × (entries.new.items ≡ entries.old.items)
        × (keys.new ≡ keys.old)) }
    ensures capacity { fonts.new.cap ≡ fonts.old.cap }
    ensures can_end { vec_len entries.new + held ≤ vec_capacity entries.new }
{
    // Room for an entry of each key, and for the entries that end the claims.
    entries.reserve(held + keys.len())?;
    note_found(fonts, entries, seat, keys);
    Ok(())
}
