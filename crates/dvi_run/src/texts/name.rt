//! Texts with numbers.
ghost use Rattle.std.specs.Prelude.{◌≡◌, ◌++◌};
ghost use Rattle.dvi_run.specs.Names.{name_text, number_text};
ghost use Rattle.run_report.specs.Puts.{Puts};

use outside::{Gather, Output};
use run_report::puts::{put, put_number};

/// What a fault is called: a text with a number after it or none, and a further text with a number
/// after it or none.
#[derive(Clone, Copy, Debug)]
pub struct Name {
    pub text: &'static [u8],
    pub number: Option<i64>,
    pub more: &'static [u8],
    pub last: Option<i64>,
}

impl Name {
    /// A text alone.
    pub fn text_only(text: &'static [u8]) -> Name
        ensures { name_text result ≡ text.now }
    {
        Name {
            text,
            number: None,
            more: b"",
            last: None,
        }
    }

    /// A text and a number.
    pub fn numbered(text: &'static [u8], number: i64) -> Name
        ensures { name_text result ≡ text.now ++ number_text (Some number) }
    {
        Name {
            text,
            number: Some(number),
            more: b"",
            last: None,
        }
    }

    /// A text and a number, with a further text and a number or none.
    pub fn followed(
        text: &'static [u8],
        number: i64,
        more: &'static [u8],
        last: Option<i64>,
    ) -> Name
        ensures { name_text result ≡ text.now ++ number_text (Some number) ++ more.now
            ++ number_text last }
    {
        Name {
            text,
            number: Some(number),
            more,
            last,
        }
    }
}

// Puts a number, if there is one.
fn put_any<N: Output>(gather: &mut Gather, notes: &mut N, number: Option<i64>)
    ensures { Puts gather.old gather.new (N.written notes.old) (N.written notes.new)
        (N.faults notes.old) (N.faults notes.new) (number_text number) }
{
    if let Some(number) = number {
        put_number(gather, notes, number);
    }
}

/// Puts the name of a fault.
pub fn put_name<N: Output>(gather: &mut Gather, notes: &mut N, name: &Name)
    ensures { Puts gather.old gather.new (N.written notes.old) (N.written notes.new)
        (N.faults notes.old) (N.faults notes.new) (name_text name.now) }
{
    put(gather, notes, name.text);
    put_any(gather, notes, name.number);
    put(gather, notes, name.more);
    put_any(gather, notes, name.last);
}
