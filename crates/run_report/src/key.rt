//! The keys of fonts in words.
ghost use Rattle.std.specs.Prelude.{◌≡◌, map};
ghost use Rattle.run_report.specs.Keys.{key_text, shown_byte};
ghost use Rattle.run_report.specs.Puts.{Puts};

use crate::puts::{put, put_number};
use outside::{FontKey, Gather, Output};

// What a byte of a name is printed as.
fn shown(byte: u8) -> u8
    ensures { result ≡ shown_byte byte }
{
    if 33 <= byte && byte <= 126 {
        byte
    } else {
        b'?'
    }
}

// Puts the bytes of a name.
fn put_shown<N: Output>(gather: &mut Gather, notes: &mut N, bytes: &[u8])
    ensures { Puts gather.old gather.new (N.written notes.old) (N.written notes.new)
        (N.faults notes.old) (N.faults notes.new) (map shown_byte bytes.now) }
{
    for byte in bytes {
        put(gather, notes, &[shown(*byte)]);
    }
}

/// Puts a font's name, its size and its design size, both in DVI units.
pub fn put_key<N: Output>(gather: &mut Gather, notes: &mut N, key: &FontKey)
    ensures { Puts gather.old gather.new (N.written notes.old) (N.written notes.new)
        (N.faults notes.old) (N.faults notes.new) (key_text key.now) }
{
    put_shown(gather, notes, key.name.bytes());
    put(gather, notes, b" ");
    put_number(gather, notes, key.size);
    put(gather, notes, b" ");
    put_number(gather, notes, key.design);
}
