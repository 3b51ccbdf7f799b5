//! The calls of a run's cache as text.

use super::source::Plan;
use cache_core::{Act, Entry};
use std::alloc::{AllocError as NoMemory, Global};

// What a call did.
fn kind_of(entry: &Entry) -> &'static str {
    match &entry.act {
        Act::Hit => "hit",
        Act::Claimed => "claimed",
        Act::Busy => "busy",
        Act::Filled(fill) if fill.gone.keys().is_empty() => "filled",
        Act::Filled(_) => "evicted",
        Act::Released => "released",
    }
}

// Whether a call names the font of one of these TFM files.
fn is_of(entry: &Entry, files: &[&[u8]]) -> bool {
    for file in files {
        if file.strip_suffix(b".tfm") == Some(entry.key.name.bytes()) {
            return true;
        }
    }
    false
}

fn is_look(entry: &Entry) -> bool {
    matches!(&entry.act, Act::Claimed | Act::Busy | Act::Hit)
}

/// Whether each look for a font that is awaited stands before the first fill of one that is held.
pub fn looked_first(history: &[Entry], plan: &Plan) -> bool {
    let mut filled = false;
    for entry in history {
        if filled && is_look(entry) && is_of(entry, plan.awaited) {
            return false;
        }
        filled = filled || (!is_look(entry) && is_of(entry, plan.held));
    }
    true
}

// Adds the calls of a seat, one after another.
fn add_own(text: &mut String, history: &[Entry], seat: u32) -> Result<(), NoMemory> {
    let mut mark = ": ";
    for entry in history {
        if entry.seat == seat {
            text.push_str(mark)?;
            text.push_str(kind_of(entry))?;
            text.push_str(" ")?;
            text.push_str(name_of(entry))?;
            mark = ", ";
        }
    }
    Ok(())
}

// The fonts of the tests.
fn name_of(entry: &Entry) -> &'static str {
    match entry.key.name.bytes() {
        b"dot" => "dot",
        b"bar" => "bar",
        b"thin" => "thin",
        _ => "another font",
    }
}

// The seat that was the first to look for a font.
fn seat_of(history: &[Entry], font: &str) -> u32 {
    for entry in history {
        if name_of(entry) == font {
            return entry.seat;
        }
    }
    0
}

/// Adds the calls of the seat that was the first to ask for `dot`, and then of the other one, which
/// asked for `bar` where any did.
pub fn add_calls(text: &mut String, history: &[Entry]) -> Result<(), NoMemory> {
    let first = seat_of(history, "dot");
    let second = seat_of(history, "bar");
    text.push_str(", dot")?;
    add_own(text, history, first)?;
    if second == 0 {
        text.push_str("; other")?;
        return add_own(text, history, 3 - first.min(3));
    }
    text.push_str("; bar")?;
    add_own(text, history, second)
}
