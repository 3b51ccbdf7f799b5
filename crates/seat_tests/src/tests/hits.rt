//! Hits that are noted together: which keys are noted, in which order the fonts then leave, and
//! which keys are left.
ghost use Rattle.std.specs.Prelude.{◌≡◌, []};

use super::key_of;
use super::machine::{Wanted, asked, second_letter, told};
use cache_core::CacheState;
use std::alloc::{AllocError as NoMemory, Global};
use std::collections::VecDeque;
use std::test::Fail;

// Three fonts: where two are kept, the first one leaves.
const FONTS: &[Wanted] = &[(b"duo", 3), (b"dot", 2), (b"bar", 4)];

// The keys whose looks are pending, and the font that is asked for once they were noted.
type Pending = (&'static [&'static [u8]], Wanted);

// The second letters of the keys that are left, and the history.
fn noted(alloc: Global, pending: &Pending) -> Result<(Vec<char>, Vec<(char, char)>), NoMemory> {
    let (names, last) = pending;
    let mut state = CacheState::new(alloc, 2, 9)?;
    for wanted in FONTS {
        if state.turns() >= 900 {
            return Err(NoMemory);
        }
        asked(alloc, &mut state, wanted, true)?;
    }
    let mut keys = VecDeque::new(alloc);
    for name in *names {
        keys.push_back(key_of(alloc, name, 128)?)?;
    }
    if state.turns() >= 900 {
        return Err(NoMemory);
    }
    state.note_hits(1, &mut keys)?;
    asked(alloc, &mut state, last, true)?;
    let mut left = Vec::new(alloc);
    for key in keys.iter() {
        left.push(second_letter(key))?;
    }
    Ok((left, told(alloc, state.entries())?))
}

// With the keys that are left, and what is in the history after the three fonts.
static ROWS: [(Pending, &'static [char], &'static [(char, char)]); 4] = [
    // The font of the third key has left, and so the fourth waits behind it.
    (
        (&[b"dot", b"bar", b"duo", b"dot"], (b"duo", 3)),
        &['u', 'o'],
        &[('o', 'h'), ('a', 'h'), ('u', 'c'), ('u', 'o')],
    ),
    // A font whose hit was noted is the newest, and the other one leaves.
    (
        (&[b"dot"], (b"duo", 3)),
        &[],
        &[('o', 'h'), ('u', 'c'), ('u', 'a')],
    ),
    (
        (&[b"duo", b"bar", b"dot"], (b"duo", 3)),
        &['u', 'a', 'o'],
        &[('u', 'c'), ('u', 'o')],
    ),
    ((&[], (b"bar", 4)), &[], &[('a', 'h')]),
];

// How the history of the three fonts begins.
const BEFORE: [(char, char); 6] = [
    ('u', 'c'),
    ('u', 'f'),
    ('o', 'c'),
    ('o', 'f'),
    ('a', 'c'),
    ('a', 'u'),
];

#[test]
fn hits(rt: HostRuntime) -> Result<(), Fail> {
    for (row, (pending, left, after)) in ROWS.iter().enumerate() {
        let mut want = Vec::from_array(rt.alloc(), BEFORE)?;
        for entry in *after {
            want.push(*entry)?;
        }
        let (others, history) = noted(rt.alloc(), pending)?;
        assert_eq!(rt;
            (others.as_slice(), history.as_slice()),
            (*left, want.as_slice()),
            "row {row}"
        );
    }
    Ok(())
}
