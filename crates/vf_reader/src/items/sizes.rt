//! How long an item is.
ghost use Rattle.std.specs.Prelude.{◌≡◌, ◌≤◌, ◌<◌, ◌+◌, ◌≢◌, IfErr, IfOk, OnOk, length};
ghost use Rattle.byte_cursor.specs.Cursor.{cursor_after, bytes_left};
ghost use Rattle.vf_reader.specs.Faults.{IsItemFault};
ghost use Rattle.vf_reader.specs.Items.{head_size, item_size, opcode, given_size};
ghost use Rattle.vf_reader.specs.declared.faults.VfFault.TheVariants as fault;

use crate::VfFault;
use crate::opcodes::{LAST_LOCAL, LONG_PACKET};
use byte_cursor::Cursor;

/// The size of the item that begins here, which isn't the closing command.
pub fn item_size(rest: &[u8]) -> Result<usize, VfFault>
    requires { opcode rest.now ≢ 248 }
    ensures size { IfOk result (λ size. size ≡ item_size rest.now) }
    ensures inside { IfOk result (λ size. size ≤ length rest.now) }
    ensures known { OnOk result (opcode rest.now ≤ 246) }
    ensures fault { IfErr result (IsItemFault rest.now) }
{
    let mut cursor = Cursor::new(rest);
    let op = cursor.byte()?;
    if op > LAST_LOCAL {
        return Err(VfFault::Misplaced(op));
    }
    let given = given_size(&mut cursor, op)?;
    cursor.take(given)?;
    Ok(cursor.at())
}

// How many bytes follow after the head of an item, of which the opcode was read.
fn given_size(cursor: &mut Cursor, op: u8) -> Result<usize, VfFault>
    requires place { cursor.old.at ≡ 1 }
    requires opcode { op ≡ opcode cursor.old.bytes }
    requires known { op ≤ 246 }
    ensures given { IfOk result (λ given. given ≡ given_size cursor.old.bytes) }
    ensures moved { OnOk result
        (cursor.new ≡ record { bytes = cursor.old.bytes; at = head_size op }) }
    ensures short { IfErr result (λ f. f ≡ fault.Short) }
    ensures cut { IfErr result (λ _. length cursor.old.bytes < head_size op) }
{
    if op < LONG_PACKET {
        cursor.take(4)?;
        return Ok(usize::from(op));
    }
    if op == LONG_PACKET {
        let length = cursor.unsigned(4)?;
        cursor.take(8)?;
        return Ok(length as usize);
    }
    local_name_size(cursor, op)
}

// The length of a local font's name with its area, after the other fields of the definition.
fn local_name_size(cursor: &mut Cursor, op: u8) -> Result<usize, VfFault>
    requires place { cursor.old.at ≡ 1 }
    requires opcode { op ≡ opcode cursor.old.bytes }
    requires definition { 243 ≤ op }
    requires known { op ≤ 246 }
    ensures given { IfOk result (λ given. given ≡ given_size cursor.old.bytes) }
    ensures moved { OnOk result
        (cursor.new ≡ record { bytes = cursor.old.bytes; at = head_size op }) }
    ensures short { IfErr result (λ f. f ≡ fault.Short) }
    ensures cut { IfErr result (λ _. length cursor.old.bytes < head_size op) }
{
    let number = usize::from(op - LONG_PACKET);
    cursor.take(number + 12)?;
    let area = cursor.byte()?;
    let rest = cursor.byte()?;
    Ok(usize::from(area) + usize::from(rest))
}
