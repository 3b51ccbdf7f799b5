//! The cache's machine: a page's looks, by one seat, and a claim that is given up.
ghost use Rattle.std.specs.Prelude.{◌≡◌, ◌+◌, ◌<◌, ◌≤◌, [], IfOk};

use super::{Sized, key_of};
use cache_core::{Act, CacheState, Entry, Look};
use outside::FontKey;
use std::alloc::{AllocError as NoMemory, Global};
use std::sync::Arc;
use std::test::Fail;

// A font that is asked for: the name of its key, and what it weighs.
pub(super) type Wanted = (&'static [u8], u32);

// Looks the key up. Where it was claimed, the claim is filled or given up.
pub(super) fn asked(
    alloc: Global,
    state: &mut CacheState<Sized>,
    wanted: &Wanted,
    fills: bool,
) -> Result<(), NoMemory>
    requires idle { state.old.claims ≡ [] }
    requires few { state.old.turns < 1000 }
    ensures idle { IfOk result (λ _. state.new.claims ≡ []) }
{
    let (name, number) = *wanted;
    let key = key_of(alloc, name, 128)?;
    let font = Arc::new(alloc, Sized { size: 128, number })?;
    let Look::Claimed = state.look(1, &key)? else {
        return Ok(());
    };
    if !fills {
        state.release(1, &key);
    } else if state.fill(1, &key, font).is_err() {
        return Err(NoMemory);
    }
    Ok(())
}

pub(super) fn second_letter(key: &Arc<FontKey>) -> char {
    match key.name.bytes().get(1) {
        Some(byte) => *byte as char,
        None => '?',
    }
}

// What a fill did: the font isn't kept, none left, one left, or more than one.
fn filled(kept: bool, gone: &[Arc<FontKey>]) -> char {
    match gone.first() {
        _ if !kept => 'n',
        None => 'f',
        Some(key) if gone.len() == 1 => second_letter(key),
        Some(_) => '+',
    }
}

// The second letter of the key, and a letter for what was done.
fn letters(entry: &Entry) -> (char, char) {
    let act = match &entry.act {
        Act::Hit => 'h',
        Act::Claimed => 'c',
        Act::Busy => 'b',
        Act::Filled(fill) => filled(fill.kept, fill.gone.keys()),
        Act::Released => 'r',
    };
    (second_letter(&entry.key), act)
}

pub(super) fn told(alloc: Global, entries: &[Entry]) -> Result<Vec<(char, char)>, NoMemory> {
    let mut told = Vec::new(alloc);
    for entry in entries {
        told.push(letters(entry))?;
    }
    Ok(told)
}

// How many fonts are kept, what they may weigh together, the fonts that are asked for, and whether
// claims are filled.
type Asked = (usize, u64, &'static [Wanted], bool);

// How many turns there were, and the history as it is shown and as it is handed out.
fn history(
    alloc: Global,
    asked_for: &Asked,
) -> Result<(u64, Vec<(char, char)>, Vec<(char, char)>), NoMemory> {
    let (capacity, budget, fonts, fills) = *asked_for;
    let mut state = CacheState::new(alloc, capacity.max(1).min(256), budget)?;
    for wanted in fonts {
        if state.turns() >= 1000 {
            return Err(NoMemory);
        }
        asked(alloc, &mut state, wanted, fills)?;
    }
    let turns = state.turns();
    let shown = told(alloc, state.entries())?;
    Ok((turns, shown, told(alloc, &state.finish())?))
}

// One font, the two that it is made of, and these again.
const PAGE: &[Wanted] = &[
    (b"duo", 3),
    (b"dot", 2),
    (b"bar", 4),
    (b"dot", 2),
    (b"bar", 4),
];

// The three fonts, one as heavy as all of them, and this one again.
const HEAVY: &[Wanted] = &[
    (b"duo", 3),
    (b"dot", 2),
    (b"bar", 4),
    (b"big", 9),
    (b"big", 9),
];

// One that weighs nothing between two that do.
const LIGHT: &[Wanted] = &[(b"duo", 3), (b"dot", 0), (b"bar", 4), (b"dot", 0)];

// With how many turns there were, and the second letter of each key with a letter for what was
// done: that of the font that left, where one did.
static ROWS: [(Asked, u64, &'static [(char, char)]); 7] = [
    (
        (1, 9, PAGE, true),
        10,
        &[
            ('u', 'c'),
            ('u', 'f'),
            ('o', 'c'),
            ('o', 'u'),
            ('a', 'c'),
            ('a', 'o'),
            ('o', 'c'),
            ('o', 'a'),
            ('a', 'c'),
            ('a', 'o'),
        ],
    ),
    (
        (3, 9, PAGE, true),
        8,
        &[
            ('u', 'c'),
            ('u', 'f'),
            ('o', 'c'),
            ('o', 'f'),
            ('a', 'c'),
            ('a', 'f'),
            ('o', 'h'),
            ('a', 'h'),
        ],
    ),
    ((1, 9, &[(b"dot", 2)], false), 2, &[('o', 'c'), ('o', 'r')]),
    (
        (3, 6, PAGE, true),
        8,
        &[
            ('u', 'c'),
            ('u', 'f'),
            ('o', 'c'),
            ('o', 'f'),
            ('a', 'c'),
            ('a', 'u'),
            ('o', 'h'),
            ('a', 'h'),
        ],
    ),
    (
        (3, 3, PAGE, true),
        9,
        &[
            ('u', 'c'),
            ('u', 'f'),
            ('o', 'c'),
            ('o', 'u'),
            ('a', 'c'),
            ('a', 'n'),
            ('o', 'h'),
            ('a', 'c'),
            ('a', 'n'),
        ],
    ),
    (
        (4, 9, HEAVY, true),
        9,
        &[
            ('u', 'c'),
            ('u', 'f'),
            ('o', 'c'),
            ('o', 'f'),
            ('a', 'c'),
            ('a', 'f'),
            ('i', 'c'),
            ('i', '+'),
            ('i', 'h'),
        ],
    ),
    (
        (2, 0, LIGHT, true),
        7,
        &[
            ('u', 'c'),
            ('u', 'n'),
            ('o', 'c'),
            ('o', 'f'),
            ('a', 'c'),
            ('a', 'n'),
            ('o', 'h'),
        ],
    ),
];

#[test]
fn histories(rt: HostRuntime) -> Result<(), Fail> {
    for (row, (asked_for, turns, want)) in ROWS.iter().enumerate() {
        let (number, shown, handed) = history(rt.alloc(), asked_for)?;
        assert_eq!(rt;
            (number, shown.as_slice(), handed.as_slice()),
            (*turns, *want, *want),
            "row {row}"
        );
    }
    Ok(())
}
