//! Reading a VF file.
ghost use Rattle.std.specs.Prelude.{◌≡◌, ◌≤◌, ◌+◌, ◌-◌, ℕ, List, ◌++◌, ◌∷◌, IfErr, IfOk, IsFalse, IsTrue, MatchResult, drop, length};
ghost use Rattle.vf_reader.specs.Faults.{IsFirstFault, IsWholeFault};
ghost use Rattle.vf_reader.specs.Fonts.{HasPacketsOf, IsItemSound, IsVfFile};
ghost use Rattle.vf_reader.specs.Items.{IsItem, code_of, head_size, is_packet, opcode};
ghost use Rattle.vf_reader.specs.Locals.{locals_of};
ghost use Rattle.vf_reader.specs.Stops.{IfFault};
ghost use Rattle.vf_reader.specs.Walked.{AreSpansOf};
ghost use Rattle.vf_reader.specs.declared.faults.VfFault.{VfFault};
ghost use Rattle.vf_reader.specs.declared.faults.VfStop.TheVariants as stop;

use crate::items::Items;
use crate::local_table::LocalTable;
use crate::locals::{definition, fault_of, local};
use crate::opcodes::LONG_PACKET;
use crate::packet_table::{PacketTable, Span};
use crate::preamble::after_preamble;
use crate::program::judge_program;
use crate::{VfFont, VfStop};
use big_endian::unsigned;
use std::alloc::Global;

impl VfFont {
    /// Reads the packets and the local fonts of a VF file, or answers its first fault. What follows
    /// the closing command 248 isn't looked at.
    ///
    /// Unless memory runs out, the font comes exactly where the bytes are a VF file, and a fault
    /// exactly where it is their first.
    pub fn read(alloc: Global, bytes: &[u8]) -> Result<VfFont, VfStop>
        ensures font { IfOk result (λ font. (items : List (List ℕ)) ×
            IsVfFile bytes.now items × HasPacketsOf items font) }
        ensures fault { IfErr result (λ stop. IfFault stop (IsFirstFault bytes.now)) }
        ensures accepted { (items : List (List ℕ)) → IsVfFile bytes.now items →
            IfErr result (λ e. e ≡ stop.NoMemory) }
        ensures refused { (f : VfFault) → IsFirstFault bytes.now f →
            MatchResult result (λ _. ⊥) (λ stop. IfFault stop (λ g. g ≡ f)) }
    {
        VfFont::of_items(alloc, bytes)
    }

    // The same with the answers alone: that no other could come follows by the laws.
    fn of_items(alloc: Global, bytes: &[u8]) -> Result<VfFont, VfStop>
        ensures font { IfOk result (λ font. (items : List (List ℕ)) ×
            IsVfFile bytes.now items × HasPacketsOf items font) }
        ensures fault { IfErr result (λ stop. IfFault stop (IsFirstFault bytes.now)) }
    {
        let mut items = Items::new(after_preamble(bytes)?);
        let mut packets = PacketTable::empty(alloc)?;
        let mut locals = LocalTable::new(alloc);
        while let Some(item) = items.next()? {
            if item[0] <= LONG_PACKET {
                add_packet(&mut packets, item, bytes.len() - items.left())?;
            } else {
                locals = with_local(alloc, locals, item)?;
            }
        }
        Ok(VfFont {
            bytes: bytes.to_vec(alloc)?,
            packets,
            locals,
        })
    }
}

// The code of a whole packet, and where its commands begin.
fn head(packet: &[u8]) -> (u32, usize)
    requires item { IsItem packet.now }
    requires kind { IsTrue (is_packet packet.now) }
    ensures code { result.0 ≡ code_of packet.now }
    ensures size { result.1 ≡ head_size (opcode packet.now) }
    ensures inside { result.1 ≤ length packet.now }
{
    if packet[0] < LONG_PACKET {
        (u32::from(packet[1]), 5)
    } else {
        (unsigned(&packet[5..9]), 13)
    }
}

// Judges a packet that ends at a place of the file, and keeps where its commands stand.
fn add_packet(packets: &mut PacketTable, packet: &[u8], end: usize) -> Result<(), VfStop>
    requires item { IsItem packet.now }
    requires kind { IsTrue (is_packet packet.now) }
    requires place { length packet.now ≤ end }
    ensures added { (bytes rest : List ℕ) (before : List (List ℕ)) →
        drop (end - length packet.now) bytes ≡ packet.now ++ rest →
        end ≤ length bytes → AreSpansOf bytes before packets.old →
        MatchResult result
        (λ _. IsItemSound before packet.now × AreSpansOf bytes (packet.now ∷ before) packets.new)
        (λ stop. IfFault stop (IsWholeFault before packet.now)) }
{
    let (code, start) = head(packet);
    judge_program(code, &packet[start..])?;
    packets.put(
        code,
        Span {
            start: end - (packet.len() - start),
            end,
        },
    )?;
    Ok(())
}

// Judges the definition of a local font after others, and adds it unless its number is there.
fn with_local(alloc: Global, locals: LocalTable, item: &[u8]) -> Result<LocalTable, VfStop>
    requires item { IsItem item.now }
    requires kind { IsFalse (is_packet item.now) }
    ensures added { (before : List (List ℕ)) → locals ≡ locals_of before →
        MatchResult result
        (λ after. IsItemSound before item.now × (after ≡ locals_of (item.now ∷ before)))
        (λ stop. IfFault stop (IsWholeFault before item.now)) }
{
    let def = definition(item);
    let known = locals.get(def.number);
    match fault_of(known, &def) {
        Some(fault) => Err(VfStop::Fault(fault)),
        None if known.is_some() => Ok(locals),
        None => Ok(locals.with(local(alloc, &def)?)?),
    }
}
