//! Character packets.
ghost use Rattle.std.specs.Prelude.{◌≡◌, ◌≤◌, ◌<◌, ◌+◌, ◌*◌, IfErr, IfOk, IsTrue, OnOk, length};
ghost use Rattle.big_endian.specs.Fields as fields;
ghost use Rattle.pk_packets.specs.Items.{IsItem, is_packet, opcode, given_size};
ghost use Rattle.pk_packets.specs.Packets.{code_of, fixed_size};
ghost use Rattle.pk_packets.specs.Reading.{IsPacketOf};
ghost use Rattle.pk_packets.specs.declared.faults.PkFault.TheVariants as fault;

use crate::PkFault;
use crate::form::Form;

/// The fields of a packet, apart from its width and escapements: PKtype says what they are. The
/// sides and offsets are in dots.
#[derive(Drop)]
pub struct Packet<'a> {
    pub code: u32,
    pub dyn_f: u8,
    pub black: bool,
    pub width: u32,
    pub height: u32,
    pub hoff: i32,
    pub voff: i32,
    pub raster: &'a [u8],
}

// The number that n bytes from a place on spell, unsigned.
fn unsigned_at(bytes: &[u8], at: usize, n: usize) -> u32
    requires some { 1 ≤ n }
    requires few { n ≤ 4 }
    requires inside { at + n ≤ length bytes.now }
    ensures { result ≡ fields.unsigned_at bytes.now at n }
{
    big_endian::unsigned(&bytes[at..at + n])
}

// The same in two's complement.
fn signed_at(bytes: &[u8], at: usize, n: usize) -> i32
    requires some { 1 ≤ n }
    requires few { n ≤ 4 }
    requires inside { at + n ≤ length bytes.now }
    ensures { result ≡ fields.signed_at bytes.now at n }
{
    big_endian::signed(&bytes[at..at + n])
}

impl<'a> Packet<'a> {
    /// The fields of a whole packet, or `Length` where it has fewer bytes than its form's fields.
    pub fn of(bytes: &'a [u8]) -> Result<Packet<'a>, PkFault>
        requires item { IsItem bytes.now }
        requires packet { IsTrue (is_packet bytes.now) }
        ensures fields { IfOk result (λ p. IsPacketOf p bytes.now) }
        ensures long { OnOk result (fixed_size (opcode bytes.now) ≤ given_size bytes.now) }
        ensures fault { IfErr result (λ f. f ≡ fault.Length (code_of bytes.now)) }
        ensures short { IfErr result (λ _. given_size bytes.now < fixed_size (opcode bytes.now)) }
    {
        let flag = bytes[0];
        let form = Form::of(flag);
        let code = unsigned_at(bytes, 1 + form.count, form.code);
        let sides = 1 + form.count + form.code + form.escapements;
        let side = form.side;
        if bytes.len() < sides + 4 * side {
            return Err(PkFault::Length(code));
        }
        Ok(Packet {
            code,
            dyn_f: flag >> 4,
            black: (flag >> 3) & 1 == 1,
            width: unsigned_at(bytes, sides, side),
            height: unsigned_at(bytes, sides + side, side),
            hoff: signed_at(bytes, sides + 2 * side, side),
            voff: signed_at(bytes, sides + 3 * side, side),
            raster: &bytes[sides + 4 * side..],
        })
    }
}
