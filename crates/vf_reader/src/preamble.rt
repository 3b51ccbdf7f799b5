//! The preamble of a VF file.
ghost use Rattle.std.specs.Prelude.{◌≡◌, None, Some, IfErr, IfOk, OnOk, drop};
ghost use Rattle.vf_reader.specs.Preamble.{preamble_fault, preamble_size};

use crate::VfFault;
use crate::opcodes::{IDENTIFIER, PRE};
use byte_cursor::Cursor;

// The bytes of the checksum and the design size, which are passed over.
const NUMBERS: usize = 8;

/// What follows the preamble, or what is wrong with the preamble, judged from the left.
pub fn after_preamble(bytes: &[u8]) -> Result<&[u8], VfFault>
    ensures rest { IfOk result (λ rest. rest.now ≡ drop (preamble_size bytes.now) bytes.now) }
    ensures right { OnOk result (preamble_fault bytes.now ≡ None) }
    ensures fault { IfErr result (λ fault. preamble_fault bytes.now ≡ Some fault) }
{
    let mut cursor = Cursor::new(bytes);
    if cursor.byte()? != PRE {
        return Err(VfFault::Preamble);
    }
    if cursor.byte()? != IDENTIFIER {
        return Err(VfFault::Preamble);
    }
    let comment = usize::from(cursor.byte()?);
    cursor.take(comment + NUMBERS)?;
    Ok(&bytes[cursor.at()..])
}
