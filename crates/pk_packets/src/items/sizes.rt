//! How long an item is.
ghost use Rattle.std.specs.Prelude.{◌≡◌, ◌≤◌, ◌<◌, ◌+◌, IfErr, IfOk, OnOk, length};
ghost use Rattle.byte_cursor.specs.Cursor.{cursor_after, bytes_left};
ghost use Rattle.pk_packets.specs.Faults.{IsItemFault};
ghost use Rattle.pk_packets.specs.Items.{code_size, count_size, item_size, opcode, given_size};
ghost use Rattle.pk_packets.specs.declared.faults.PkFault.TheVariants as fault;

use crate::PkFault;
use crate::form::{Form, high_bits};
use crate::opcodes::{LAST_SPECIAL, NO_OP, NUMBER, SPECIAL};
use byte_cursor::Cursor;

/// The size of the item that begins here; that of the closing command is 1.
pub fn item_size(rest: &[u8]) -> Result<usize, PkFault>
    ensures size { IfOk result (λ size. size ≡ item_size rest.now) }
    ensures inside { IfOk result (λ size. size ≤ length rest.now) }
    ensures known { OnOk result (opcode rest.now ≤ 246) }
    ensures fault { IfErr result (IsItemFault rest.now) }
{
    let mut cursor = Cursor::new(rest);
    let op = cursor.byte()?;
    if op > NO_OP {
        return Err(PkFault::Undefined(op));
    }
    let given = given_size(&mut cursor, op)?;
    cursor.take(given)?;
    Ok(cursor.at())
}

// How many bytes follow after the head of an item, of which the opcode was read.
fn given_size(cursor: &mut Cursor, op: u8) -> Result<usize, PkFault>
    requires place { cursor.old.at ≡ 1 }
    requires opcode { op ≡ opcode cursor.old.bytes }
    ensures given { IfOk result (λ given. given ≡ given_size cursor.old.bytes) }
    ensures moved { OnOk result (cursor.new ≡ cursor_after cursor.old
        (count_size op + code_size op)) }
    ensures short { IfErr result (λ f. f ≡ fault.Short) }
    ensures cut { IfErr result (λ _. bytes_left cursor.old < count_size op + code_size op) }
{
    if op < SPECIAL {
        return packet_length(cursor, op);
    }
    if op <= LAST_SPECIAL {
        return Ok(cursor.unsigned(usize::from(op - SPECIAL) + 1)? as usize);
    }
    if op == NUMBER { Ok(4) } else { Ok(0) }
}

// The length of a packet, of which the flag was read. Its code is passed over.
fn packet_length(cursor: &mut Cursor, flag: u8) -> Result<usize, PkFault>
    requires place { cursor.old.at ≡ 1 }
    requires opcode { flag ≡ opcode cursor.old.bytes }
    requires packet { flag < 240 }
    ensures given { IfOk result (λ given. given ≡ given_size cursor.old.bytes) }
    ensures moved { OnOk result (cursor.new ≡ cursor_after cursor.old
        (count_size flag + code_size flag)) }
    ensures short { IfErr result (λ f. f ≡ fault.Short) }
    ensures cut { IfErr result (λ _. bytes_left cursor.old < count_size flag + code_size flag) }
{
    let form = Form::of(flag);
    let count = cursor.unsigned(form.count)?;
    cursor.take(form.code)?;
    Ok(high_bits(flag) + count as usize)
}
