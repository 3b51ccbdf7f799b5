//! The trace: a line for each call of the font cache.
ghost use Rattle.std.specs.Prelude.{◌++◌, codes, map};
ghost use Rattle.std.specs.Arc.{arc_value};
ghost use Rattle.std.specs.List.{flat_map};
ghost use Rattle.cache_core.specs.Views.{call_of, calls_of, done_of};
ghost use Rattle.run_report.specs.Keys.{key_text};
ghost use Rattle.run_report.specs.Puts.{Puts};
ghost use Rattle.run_report.specs.Trace.{act_text, entry_line, evicted_text, further_text, trace_text};

use crate::key::put_key;
use crate::puts::{put, put_number};
use cache_core::{Act, Entry};
use outside::{FontKey, Gather, Output};
use std::sync::Arc;

// Puts a look for a key and its answer.
fn put_look<N: Output>(gather: &mut Gather, notes: &mut N, key: &FontKey, answer: &[u8])
    ensures { Puts gather.old gather.new (N.written notes.old) (N.written notes.new)
        (N.faults notes.old) (N.faults notes.new)
        (codes "look " ++ key_text key.now ++ answer.now) }
{
    put(gather, notes, b"look ");
    put_key(gather, notes, key);
    put(gather, notes, answer);
}

// Puts further keys whose fonts were evicted.
fn put_further<N: Output>(gather: &mut Gather, notes: &mut N, keys: &[Arc<FontKey>])
    ensures { Puts gather.old gather.new (N.written notes.old) (N.written notes.new)
        (N.faults notes.old) (N.faults notes.new)
        (flat_map further_text (map arc_value keys.now)) }
{
    for key in keys {
        put(gather, notes, b", ");
        put_key(gather, notes, key);
    }
}

// Puts the keys whose fonts were evicted, or a dash.
fn put_evicted<N: Output>(gather: &mut Gather, notes: &mut N, keys: &[Arc<FontKey>])
    ensures { Puts gather.old gather.new (N.written notes.old) (N.written notes.new)
        (N.faults notes.old) (N.faults notes.new) (evicted_text (map arc_value keys.now)) }
{
    match keys.split_first() {
        None => put(gather, notes, b"-"),
        Some((first, further)) => {
            put_key(gather, notes, first);
            put_further(gather, notes, further);
        }
    }
}

// Puts a fill of a key whose font is kept, and the keys whose fonts were evicted for it.
fn put_fill<N: Output>(gather: &mut Gather, notes: &mut N, key: &FontKey, gone: &[Arc<FontKey>])
    ensures { Puts gather.old gather.new (N.written notes.old) (N.written notes.new)
        (N.faults notes.old) (N.faults notes.new) (codes "fill " ++ key_text key.now
        ++ codes " evict " ++ evicted_text (map arc_value gone.now)) }
{
    put(gather, notes, b"fill ");
    put_key(gather, notes, key);
    put(gather, notes, b" evict ");
    put_evicted(gather, notes, gone);
}

// Puts a fill of a key whose font isn't kept.
fn put_not_kept<N: Output>(gather: &mut Gather, notes: &mut N, key: &FontKey)
    ensures { Puts gather.old gather.new (N.written notes.old) (N.written notes.new)
        (N.faults notes.old) (N.faults notes.new)
        (codes "fill " ++ key_text key.now ++ codes " not kept") }
{
    put(gather, notes, b"fill ");
    put_key(gather, notes, key);
    put(gather, notes, b" not kept");
}

// Puts a key that is claimed no longer.
fn put_release<N: Output>(gather: &mut Gather, notes: &mut N, key: &FontKey)
    ensures { Puts gather.old gather.new (N.written notes.old) (N.written notes.new)
        (N.faults notes.old) (N.faults notes.new) (codes "release " ++ key_text key.now) }
{
    put(gather, notes, b"release ");
    put_key(gather, notes, key);
}

// Puts what was done with a key.
fn put_act<N: Output>(gather: &mut Gather, notes: &mut N, key: &FontKey, act: &Act)
    ensures { Puts gather.old gather.new (N.written notes.old) (N.written notes.new)
        (N.faults notes.old) (N.faults notes.new) (act_text key.now (done_of act.now)) }
{
    match act {
        Act::Hit => put_look(gather, notes, key, b" hit"),
        Act::Claimed => put_look(gather, notes, key, b" claimed"),
        Act::Busy => put_look(gather, notes, key, b" busy"),
        Act::Filled(fill) if fill.kept => put_fill(gather, notes, key, fill.gone.keys()),
        Act::Filled(_) => put_not_kept(gather, notes, key),
        Act::Released => put_release(gather, notes, key),
    }
}

// Puts the line of a call.
fn put_entry<N: Output>(gather: &mut Gather, notes: &mut N, entry: &Entry)
    ensures { Puts gather.old gather.new (N.written notes.old) (N.written notes.new)
        (N.faults notes.old) (N.faults notes.new) (entry_line (call_of entry.now)) }
{
    put_number(gather, notes, entry.seat);
    put(gather, notes, b" ");
    put_act(gather, notes, &entry.key, &entry.act);
    put(gather, notes, b"\n");
}

/// Puts the line of each call of the font cache, in the order of the history.
pub fn put_trace<N: Output>(gather: &mut Gather, notes: &mut N, history: &[Entry])
    ensures { Puts gather.old gather.new (N.written notes.old) (N.written notes.new)
        (N.faults notes.old) (N.faults notes.new) (trace_text (calls_of history.now)) }
{
    for entry in history {
        put_entry(gather, notes, entry);
    }
}
