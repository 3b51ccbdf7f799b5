//! The faults of a page in words.
ghost use Rattle.std.specs.Prelude.{◌≡◌, ◌++◌, codes};
ghost use Rattle.std.specs.Fmt.{signed_decimal};
ghost use Rattle.vf_expand.specs.Faults.{value_of_fault};
ghost use Rattle.vf_expand.specs.Faults as page;
ghost use Rattle.run_report.specs.Keys.{key_text};
ghost use Rattle.run_report.specs.Puts.{Puts};
ghost use Rattle.dvi_run.specs.FontTexts.{font_text};
ghost use Rattle.dvi_run.specs.PageTexts.{fault_text, pen_text};

use crate::texts::font::font_name;
use crate::texts::name::put_name;
use drift_rules::PenFault;
use font_decode::FontFault;
use outside::{FontKey, Gather, Output};
use run_report::key::put_key;
use run_report::puts::{put, put_number};
use vf_expand::PageFault;

// The name of a fault of the pen.
fn pen_name(fault: PenFault) -> &'static [u8]
    ensures { result.now ≡ pen_text fault }
{
    match fault {
        PenFault::Overflow => b"overflow",
        PenFault::StackEmpty => b"stack empty",
        PenFault::StackDeep => b"stack deep",
        PenFault::StackLeft => b"stack left",
    }
}

// Puts the number of a font that isn't defined.
fn put_undefined<N: Output>(gather: &mut Gather, notes: &mut N, number: i32)
    ensures { Puts gather.old gather.new (N.written notes.old) (N.written notes.new)
        (N.faults notes.old) (N.faults notes.new) (codes "no font " ++ signed_decimal number) }
{
    put(gather, notes, b"no font ");
    put_number(gather, notes, number);
}

// Puts what is wrong with a character of a font.
fn put_character<N: Output>(
    gather: &mut Gather,
    notes: &mut N,
    text: &[u8],
    code: i32,
    key: &FontKey,
)
    ensures { Puts gather.old gather.new (N.written notes.old) (N.written notes.new)
        (N.faults notes.old) (N.faults notes.new)
        (text.now ++ signed_decimal code ++ codes " in " ++ key_text key.now) }
{
    put(gather, notes, text);
    put_number(gather, notes, code);
    put(gather, notes, b" in ");
    put_key(gather, notes, key);
}

// Puts the number of a local font that isn't defined, or that a virtual font has no local fonts.
fn put_local<N: Output>(gather: &mut Gather, notes: &mut N, number: Option<i32>, key: &FontKey)
    ensures { Puts gather.old gather.new (N.written notes.old) (N.written notes.new)
        (N.faults notes.old) (N.faults notes.new)
        (fault_text (page.NoLocalFont key.now number)) }
{
    match number {
        Some(number) => put_character(gather, notes, b"no local font ", number, key),
        None => {
            put(gather, notes, b"no local font in ");
            put_key(gather, notes, key);
        }
    }
}

// Puts what is wrong with a font's files.
fn put_font<N: Output>(gather: &mut Gather, notes: &mut N, key: &FontKey, fault: FontFault)
    ensures { Puts gather.old gather.new (N.written notes.old) (N.written notes.new)
        (N.faults notes.old) (N.faults notes.new)
        (codes "font " ++ key_text key.now ++ codes ": " ++ font_text fault) }
{
    put(gather, notes, b"font ");
    put_key(gather, notes, key);
    put(gather, notes, b": ");
    put_name(gather, notes, &font_name(fault));
}

/// Puts what is wrong with a page.
pub fn put_fault<N: Output>(gather: &mut Gather, notes: &mut N, fault: &PageFault)
    ensures { Puts gather.old gather.new (N.written notes.old) (N.written notes.new)
        (N.faults notes.old) (N.faults notes.new) (fault_text (value_of_fault fault.now)) }
{
    match fault {
        PageFault::NoFont(number) => put_undefined(gather, notes, *number),
        PageFault::NoCurrentFont => put(gather, notes, b"no current font"),
        PageFault::NoCharacter(key, code) => {
            put_character(gather, notes, b"no character ", *code, key)
        }
        PageFault::NoGlyph(key, code) => put_character(gather, notes, b"no glyph ", *code, key),
        PageFault::NoPacket(key, code) => {
            put_character(gather, notes, b"no packet ", *code, key)
        }
        PageFault::NoLocalFont(key, number) => put_local(gather, notes, *number, key),
        PageFault::Depth(key, code) => put_character(gather, notes, b"depth at ", *code, key),
        PageFault::TooLong => put(gather, notes, b"too long"),
        PageFault::Font(key, fault) => put_font(gather, notes, key, *fault),
        PageFault::Pen(fault) => put(gather, notes, pen_name(*fault)),
    }
}
