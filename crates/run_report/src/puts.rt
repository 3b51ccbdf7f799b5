//! Puts parts of a line.
ghost use Rattle.run_report.specs.Puts.{Puts};

use itoa::{Buffer, Integer};
use outside::{Gather, Output};

/// Puts a text.
pub fn put<N: Output>(gather: &mut Gather, notes: &mut N, text: &[u8])
    ensures { Puts gather.old gather.new (N.written notes.old) (N.written notes.new)
        (N.faults notes.old) (N.faults notes.new) text.now }
{
    gather.put(notes, text);
}

/// Puts a number in decimal.
pub fn put_number<N: Output, I: Integer>(gather: &mut Gather, notes: &mut N, number: I)
    ensures { Puts gather.old gather.new (N.written notes.old) (N.written notes.new)
        (N.faults notes.old) (N.faults notes.new) (I.text number) }
{
    put(gather, notes, Buffer::new().format(number).as_bytes());
}
