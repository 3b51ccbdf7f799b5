//! The history of one key, judged from outside.
use cache_core::{Act, Entry};

// A letter for what was done.
fn letter(act: &Act) -> char {
    match act {
        Act::Hit => 'h',
        Act::Claimed => 'c',
        Act::Busy => 'b',
        Act::Filled(fill) if fill.kept && fill.gone.keys().is_empty() => 'f',
        Act::Filled(_) => 'g',
        Act::Released => 'r',
    }
}

// Whether the entries are these seats' acts.
pub(super) fn are_told(entries: &[Entry], expected: &[(u32, char)]) -> bool {
    let mut all = entries.len() == expected.len();
    for (entry, wanted) in entries.iter().zip(expected) {
        all = all && (entry.seat, letter(&entry.act)) == *wanted;
    }
    all
}

// The seat that claims the one key, and whether its font is there.
#[derive(Drop)]
struct OneKey {
    claims: Option<u32>,
    is_there: bool,
}

// Whether the call may be made then, and makes its change.
fn fits(state: &mut OneKey, entry: &Entry) -> bool {
    let is_own = state.claims == Some(entry.seat);
    match &entry.act {
        Act::Hit => state.is_there,
        Act::Busy => !state.is_there && state.claims.is_some() && !is_own,
        Act::Claimed => {
            let is_free = !state.is_there && state.claims.is_none();
            state.claims = Some(entry.seat);
            is_free
        }
        Act::Filled(fill) => {
            state.claims = None;
            state.is_there = true;
            is_own && fill.kept && fill.gone.keys().is_empty()
        }
        Act::Released => {
            state.claims = None;
            is_own
        }
    }
}

// Whether the calls are legal ones of a cache that has one key, whose font is there in the end.
pub(super) fn are_of_one_key(entries: &[Entry]) -> bool {
    let mut state = OneKey {
        claims: None,
        is_there: false,
    };
    let mut all = true;
    for entry in entries {
        all = fits(&mut state, entry) && all;
    }
    all && state.is_there
}
