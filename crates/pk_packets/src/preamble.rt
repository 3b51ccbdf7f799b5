//! The preamble.
ghost use Rattle.std.specs.Prelude.{◌≡◌, IfErr, IfOk, None, OnOk, Some, drop};
ghost use Rattle.pk_packets.specs.Preamble.{preamble_fault, preamble_size};

use crate::PkFault;
use crate::opcodes::{IDENTIFIER, PRE};
use byte_cursor::Cursor;

// The bytes of the design size, the checksum and the two resolutions, which are passed over.
const NUMBERS: usize = 16;

/// What follows the preamble, or what is wrong with the preamble, judged from the left.
pub fn after_preamble(bytes: &[u8]) -> Result<&[u8], PkFault>
    ensures rest { IfOk result (λ rest. rest.now ≡ drop (preamble_size bytes.now) bytes.now) }
    ensures right { OnOk result (preamble_fault bytes.now ≡ None) }
    ensures fault { IfErr result (λ fault. preamble_fault bytes.now ≡ Some fault) }
{
    let mut cursor = Cursor::new(bytes);
    if cursor.byte()? != PRE {
        return Err(PkFault::Preamble);
    }
    if cursor.byte()? != IDENTIFIER {
        return Err(PkFault::Preamble);
    }
    let comment = usize::from(cursor.byte()?);
    cursor.take(comment + NUMBERS)?;
    Ok(&bytes[cursor.at()..])
}
