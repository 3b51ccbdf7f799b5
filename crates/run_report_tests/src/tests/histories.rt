//! Histories of a font cache, written as their calls.

use cache_core::{Act, Entry, Keys, WeighedFill};
use outside::{FontKey, FontName};
use std::alloc::Global;
use std::sync::Arc;
use std::test::Fail;

/// What was done with a key. For the last the fonts of other keys were evicted.
#[derive(Clone, Copy)]
pub enum Done {
    Hit,
    Claimed,
    Busy,
    Released,
    NotKept,
    Filled,
    Evicted(&'static [&'static [u8]]),
}

/// How often a call stands there, its seat, and the name of its key.
pub type Call = (usize, u32, &'static [u8], Done);

/// A key of these sizes.
pub fn sized(alloc: Global, name: &[u8], size: u32, design: u32) -> Result<Arc<FontKey>, Fail> {
    let key = FontKey {
        area: 0,
        name: FontName::new(alloc, name)?,
        size,
        design,
    };
    Ok(Arc::new(alloc, key)?)
}

// A fill with a font that weighs 2 bytes.
fn fill(alloc: Global, kept: bool, names: &[&[u8]]) -> Result<Act, Fail> {
    let mut gone = Vec::new(alloc);
    for name in names {
        gone.push(sized(alloc, name, 128, 128)?)?;
    }
    let fill = WeighedFill {
        weight: 2,
        kept,
        gone: Keys::new(gone),
    };
    Ok(Act::Filled(Box::new(alloc, fill)?))
}

fn act_of(alloc: Global, done: Done) -> Result<Act, Fail> {
    Ok(match done {
        Done::Hit => Act::Hit,
        Done::Claimed => Act::Claimed,
        Done::Busy => Act::Busy,
        Done::Released => Act::Released,
        Done::NotKept => fill(alloc, false, &[])?,
        Done::Filled => fill(alloc, true, &[])?,
        Done::Evicted(names) => fill(alloc, true, names)?,
    })
}

fn entry_of(alloc: Global, seat: u32, name: &[u8], done: Done) -> Result<Entry, Fail> {
    let act = act_of(alloc, done)?;
    let key = sized(alloc, name, 128, 128)?;
    Ok(Entry { seat, key, act })
}

/// The history of these calls, whose keys are all 128 units large.
pub fn history_of(alloc: Global, calls: &[Call]) -> Result<Vec<Entry>, Fail> {
    let mut history = Vec::new(alloc);
    for &(times, seat, name, done) in calls {
        for _ in 0..times {
            history.push(entry_of(alloc, seat, name, done)?)?;
        }
    }
    Ok(history)
}
