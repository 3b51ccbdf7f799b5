//! The resident fonts, in the order of their use.
ghost use Rattle.std.specs.Prelude.{◌≡◌, ◌+◌, ◌-◌, ◌≤◌, true, leb, ◌&&◌, ◌∷◌, ◌++◌, Some, None, length, map, take, drop, reverse, IfOk, OnOk, OnErr, IfErr, IfSome, OnSome};
ghost use Rattle.std.specs.Option.{option_map};
ghost use Rattle.std.specs.Arc.{arc_value};
ghost use Rattle.std.specs.Vec.{vec_len, vec_capacity};
ghost use Rattle.std.specs.Map.{lookup, keys_of, values_of};
ghost use Rattle.lru.specs.LruCache.{promoted, lru_cache, last_entry};
ghost use Rattle.outside.specs.declared.keys.FontKey.{FontKey};
ghost use Rattle.cache_core.specs.Limits.{MAX_CACHED_FONTS};
ghost use Rattle.cache_core.specs.Machine.{key_eq, weights, stay, gone_of};
ghost use Rattle.cache_core.specs.Views.{fonts_of, weighed, fonts_to_evict, passes};

use crate::entry::WeighedFill;
use crate::key_test::same_key;
use crate::keys::Keys;
use crate::limits::Limits;
use crate::stands::Stands;
use lru::LruCache;
use outside::FontKey;
use std::alloc::{AllocError as NoMemory, Global};
use std::sync::Arc;

pub(crate) type Fonts<T> = LruCache<Arc<FontKey>, Arc<T>>;

// The resident fonts, and what they weigh together. There is a place more than fonts may stay, so
// that one that comes in drives none out by itself.
#[derive(Drop)]
pub(crate) struct Resident<T: Drop> {
    pub(crate) fonts: Fonts<T>,
    pub(crate) total: u64,
}

// The font of this key, if it is the newest: no other has to be looked for, and none moves.
pub(crate) fn newest<'f, T: Drop>(fonts: &'f Fonts<T>, key: &Arc<FontKey>) -> Option<&'f Arc<T>>
    ensures found { IfSome result (λ font. lookup (passes (arc_value key.now)) fonts.now.entries
        ≡ Some font.now) }
    ensures first { OnSome result (promoted (passes (arc_value key.now)) fonts.now.entries
        ≡ fonts.now.entries) }
{
    match fonts.peek_mru() {
        Some((first, font)) if same_key(key, first) => Some(font),
        _ => None,
    }
}

// Makes the font of this key the newest.
fn to_front<T: Drop>(fonts: &mut Fonts<T>, key: &Arc<FontKey>)
    ensures moved { fonts.new.entries ≡ promoted (passes (arc_value key.now)) fonts.old.entries }
    ensures capacity { fonts.new.cap ≡ fonts.old.cap }
{
    fonts.promote(key);
}

// The font of this key, which becomes the newest. Its place is looked for twice: once `get` has
// moved it, a second owner that can't be had couldn't leave the order as it was.
fn find_by_hash<T: Drop>(
    fonts: &mut Fonts<T>,
    key: &Arc<FontKey>,
) -> Result<Option<Arc<T>>, NoMemory>
    ensures found { IfOk result (λ font. option_map arc_value font
        ≡ lookup (key_eq (arc_value key.now)) (fonts_of fonts.old.entries)) }
    ensures moved { OnOk result (fonts_of fonts.new.entries
        ≡ promoted (key_eq (arc_value key.now)) (fonts_of fonts.old.entries)) }
    ensures none { IfOk result (λ font. font ≡ None → fonts.new ≡ fonts.old) }
    ensures capacity { fonts.new.cap ≡ fonts.old.cap }
    ensures same { OnErr result (fonts.new ≡ fonts.old) }
{
    let found = match fonts.peek(key) {
        Some(font) => Arc::try_clone(font)?,
        None => return Ok(None),
    };
    to_front(fonts, key);
    Ok(Some(found))
}

// The font of this key, which becomes the newest.
pub(crate) fn find<T: Drop>(
    fonts: &mut Fonts<T>,
    key: &Arc<FontKey>,
) -> Result<Option<Arc<T>>, NoMemory>
    ensures found { IfOk result (λ font. option_map arc_value font
        ≡ lookup (key_eq (arc_value key.now)) (fonts_of fonts.old.entries)) }
    ensures moved { OnOk result (fonts_of fonts.new.entries
        ≡ promoted (key_eq (arc_value key.now)) (fonts_of fonts.old.entries)) }
    ensures none { IfOk result (λ font. font ≡ None → fonts.new ≡ fonts.old) }
    ensures capacity { fonts.new.cap ≡ fonts.old.cap }
    ensures same { OnErr result (fonts.new ≡ fonts.old) }
{
    match newest(fonts, key) {
        Some(font) => Ok(Some(Arc::try_clone(font)?)),
        None => find_by_hash(fonts, key),
    }
}

// What a font that comes in drives out.
struct Leavers {
    // The keys whose fonts leave, the least recently used first: one list to note, one to answer.
    noted: Vec<Arc<FontKey>>,
    answered: Vec<Arc<FontKey>>,
    // How many others stay, and what they weigh together.
    stay: usize,
    rest: u64,
}

// Whether a font of this weight may stand beside n others that weigh `rest` together.
fn they_fit(limits: Limits, weight: u64, stay: usize, rest: u64) -> bool
    requires fits { weight ≤ limits.budget }
    ensures { result ≡ (leb (stay + 1) limits.capacity && leb (weight + rest) limits.budget) }
{
    stay < limits.capacity && rest <= limits.budget - weight
}

// Which fonts leave where one of this weight comes in. They are found from the least recently used
// on, and no other is looked at.
fn find_leavers<T: Stands>(
    alloc: Global,
    resident: &Resident<T>,
    limits: Limits,
    weight: u64,
) -> Result<Leavers, NoMemory>
    requires some_font { 1 ≤ limits.capacity }
    requires fits { weight ≤ limits.budget }
    requires total { resident.now.total
        ≡ weights (weighed T.weighs (fonts_of resident.now.fonts.entries)) }
    ensures stay { IfOk result (λ l. (k : FontKey) → stay limits
        ((k, weight) ∷ weighed T.weighs (fonts_of resident.now.fonts.entries)) ≡ l.stay + 1) }
    ensures some { IfOk result (λ l. l.stay ≤ length resident.now.fonts.entries) }
    ensures noted { IfOk result (λ l. map arc_value l.noted.items
        ≡ reverse (keys_of (drop l.stay (fonts_of resident.now.fonts.entries)))) }
    ensures answered { IfOk result (λ l. map arc_value l.answered.items
        ≡ map arc_value l.noted.items) }
    ensures rest { IfOk result (λ l. l.rest
        ≡ weights (weighed T.weighs (fonts_of (take l.stay resident.now.fonts.entries)))) }
    ensures room { IfOk result (λ l. weight + l.rest ≤ limits.budget) }
{
    let mut noted = Vec::new(alloc);
    let mut answered = Vec::new(alloc);
    let mut rest = resident.total;
    let mut oldest = resident.fonts.iter();
    let count = resident.fonts.len();
    for gone in 0..count {
        let stay = count - gone;
        if they_fit(limits, weight, stay, rest) {
            return Ok(Leavers {
                noted,
                answered,
                stay,
                rest,
            });
        }
        let Some((key, font)) = oldest.next_back() else {
            unreachable!()
        };
        noted.push(Arc::try_clone(key)?)?;
        answered.push(Arc::try_clone(key)?)?;
        let heavy = font.weight();
        rest -= heavy;
    }
    Ok(Leavers {
        noted,
        answered,
        stay: 0,
        rest,
    })
}

// Takes out the least recently used font, with its key.
fn pop_oldest<T: Drop>(fonts: &mut Fonts<T>) -> Option<(Arc<FontKey>, Arc<T>)>
    ensures value { result ≡ last_entry fonts.old.entries }
    ensures entries { fonts.new
        ≡ lru_cache (take (length fonts.old.entries - 1) fonts.old.entries) fonts.old.cap }
{
    fonts.pop_lru()
}

// Takes out the least recently used fonts until n are left, into room that is there.
fn drop_oldest<T: Drop>(fonts: &mut Fonts<T>, stay: usize, left: &mut Vec<Arc<T>>)
    requires room { vec_len left.old + length fonts.old.entries ≤ vec_capacity left.old + stay }
    requires some { stay ≤ length fonts.old.entries }
    ensures kept { fonts.new ≡ lru_cache (take stay fonts.old.entries) fonts.old.cap }
    ensures left { map arc_value left.new.items ≡ map arc_value left.old.items
        ++ reverse (values_of (drop stay (fonts_of fonts.old.entries))) }
{
    for _ in stay..fonts.len() {
        let Some((_, font)) = pop_oldest(fonts) else {
            unreachable!()
        };
        left.push_reserved(font);
    }
}

// What the history tells of a fill, in memory of its own.
pub(crate) fn told(
    alloc: Global,
    weight: u64,
    kept: bool,
    gone: Vec<Arc<FontKey>>,
) -> Result<Box<WeighedFill>, NoMemory>
    ensures { IfOk result (λ told. told.value ≡ record {
      weight = weight;
      kept = kept;
      gone = map arc_value gone.items;
    }) }
{
    let gone = Keys::new(gone);
    Ok(Box::new(alloc, WeighedFill { weight, kept, gone })?)
}

// What was stored: what the history tells of it, the keys whose fonts left for it, and these fonts.
pub(crate) struct Stored<T: Drop> {
    pub(crate) noted: Box<WeighedFill>,
    pub(crate) answered: Keys,
    pub(crate) left: Vec<Arc<T>>,
}

// Adds a font whose key isn't there and that isn't too heavy, and takes out those that leave for
// it.
pub(crate) fn store<T: Stands>(
    alloc: Global,
    resident: &mut Resident<T>,
    limits: Limits,
    key: &Arc<FontKey>,
    font: Arc<T>,
    weight: u64,
) -> Result<Stored<T>, Arc<T>>
    requires missing { lookup (key_eq (arc_value key.now)) (fonts_of resident.old.fonts.entries)
        ≡ None }
    requires some_font { 1 ≤ limits.capacity }
    requires few_fonts { limits.capacity ≤ MAX_CACHED_FONTS }
    requires places { resident.old.fonts.cap ≡ limits.capacity + 1 }
    requires few { length resident.old.fonts.entries ≤ limits.capacity }
    requires fits { weight ≤ limits.budget }
    requires weight { weight ≡ T.weighs (arc_value font) }
    requires total { resident.old.total
        ≡ weights (weighed T.weighs (fonts_of resident.old.fonts.entries)) }
    ensures noted { IfOk result (λ s. s.noted.value ≡ record {
      weight = weight;
      kept = true;
      gone = s.answered;
    }) }
    ensures answered { IfOk result (λ s. s.answered ≡ gone_of limits
        ((arc_value key.now, weight) ∷ weighed T.weighs (fonts_of resident.old.fonts.entries))) }
    ensures left { IfOk result (λ s. map arc_value s.left.items ≡ fonts_to_evict
        limits T.weighs ((arc_value key.now, arc_value font)
        ∷ fonts_of resident.old.fonts.entries)) }
    ensures kept { OnOk result (fonts_of resident.new.fonts.entries
        ≡ take (stay limits
        ((arc_value key.now, weight) ∷ weighed T.weighs (fonts_of resident.old.fonts.entries)))
        ((arc_value key.now, arc_value font) ∷ fonts_of resident.old.fonts.entries)) }
    ensures some { OnOk result (1 ≤ stay limits
        ((arc_value key.now, weight)
        ∷ weighed T.weighs (fonts_of resident.old.fonts.entries))) }
    ensures total { OnOk result (resident.new.total ≡ weights (weighed T.weighs
        (fonts_of resident.new.fonts.entries))) }
    ensures capacity { resident.new.fonts.cap ≡ resident.old.fonts.cap }
    ensures back { IfErr result (λ handed. handed ≡ font) }
    ensures same { OnErr result (resident.new ≡ resident.old) }
{
    let Ok(leavers) = find_leavers(alloc, resident, limits, weight) else {
        return Err(font);
    };
    let Leavers {
        noted,
        answered,
        stay,
        rest,
    } = leavers;
    let mut left = Vec::new(alloc);
    let Ok(()) = left.reserve(noted.len()) else {
        return Err(font);
    };
    let Ok(noted) = told(alloc, weight, true, noted) else {
        return Err(font);
    };
    let Ok(kept) = Arc::try_clone(key) else {
        return Err(font);
    };
    if let Err(failed) = resident.fonts.push(kept, font) {
        return Err(failed.value.1);
    }
    drop_oldest(&mut resident.fonts, stay + 1, &mut left);
    resident.total = weight + rest;
    Ok(Stored {
        noted,
        answered: Keys::new(answered),
        left,
    })
}
