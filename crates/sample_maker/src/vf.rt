//! VF files of given local fonts and packets (Knuth, VFtoVP, "Virtual fonts").
ghost use Rattle.std.specs.Prelude.{◌≡◌, ℕ, ◌^◌, ◌<◌, ◌≤◌, ◌++◌, List, All, IfOk, IsTrue, OnOk, length, map, replicate};
ghost use Rattle.std.specs.List.{AllByRecursion, flat_map};
ghost use Rattle.big_endian.specs.Numbers.{IsUnsigned, number_bytes};
ghost use Rattle.vf_reader.specs.Fonts.{IsVfFile};
ghost use Rattle.sample_maker.specs.VfFile.{GivesFont, IsFileOf, IsLocalSound, IsLocalSpelled, IsLocalWritable, IsPacketSound, IsPacketWritable, closing_after, have_own_codes, have_own_numbers, local_item, long_packet, packet_item, short_packet, vf_file};

use dvi_commands::{Command, FontDef, write_command};
use std::alloc::{AllocError as NoMemory, Global};
use vf_reader::LocalDef;

// Appends the definition of a local font, with the checksum 0.
fn append_local(alloc: Global, local: &LocalDef, out: &mut Vec<u8>) -> Result<(), NoMemory>
    requires { IsLocalWritable local.now }
    ensures appended { OnOk result (out.new.items ≡ out.old.items ++ local_item local.now) }
    ensures spelled { IsLocalSpelled local.now }
{
    write_command(
        alloc,
        &Command::Define(FontDef {
            number: local.number,
            check: 0,
            size: local.factor as i32,
            design: local.points as i32,
            area: local.area,
            name: local.name.bytes(),
        }),
        out,
    )
}

// Appends the definitions of the local fonts.
fn append_locals(alloc: Global, locals: &[LocalDef], out: &mut Vec<u8>) -> Result<(), NoMemory>
    requires { AllByRecursion IsLocalWritable locals.now }
    ensures appended { OnOk result
        (out.new.items ≡ out.old.items ++ flat_map local_item locals.now) }
    ensures spelled { OnOk result (All IsLocalSpelled locals.now) }
{
    for i in 0..locals.len() {
        append_local(alloc, &locals[i], out)?;
    }
    Ok(())
}

// Appends a packet of at most 241 bytes of commands: their number, the code and a width of three
// bytes.
fn append_short(code: u8, width: i32, commands: &[u8], out: &mut Vec<u8>) -> Result<(), NoMemory>
    requires width { IsUnsigned 3 width }
    requires few { length commands.now ≤ 241 }
    ensures { OnOk result
        (out.new.items ≡ out.old.items ++ short_packet (code, width, commands.now)) }
{
    out.extend_from_slice(&[commands.len() as u8, code])?;
    out.extend_from_slice(&width.to_be_bytes()[1..])?;
    out.extend_from_slice(commands)
}

// The four bytes of a number.
fn word_bytes(number: i32) -> [u8; 4]
    ensures { result ≡ number_bytes 4 number }
{
    number.to_be_bytes()
}

// Appends a packet with numbers of four bytes.
fn append_long(code: u8, width: i32, commands: &[u8], out: &mut Vec<u8>) -> Result<(), NoMemory>
    requires { length commands.now < 2 ^ 32 }
    ensures { OnOk result
        (out.new.items ≡ out.old.items ++ long_packet (code, width, commands.now)) }
{
    out.push(242)?;
    out.extend_from_slice(&(commands.len() as u32).to_be_bytes())?;
    out.extend_from_slice(&u32::from(code).to_be_bytes())?;
    out.extend_from_slice(&word_bytes(width))?;
    out.extend_from_slice(commands)
}

// Appends a packet, in the short form where it can.
fn append_packet(code: u8, width: i32, commands: &[u8], out: &mut Vec<u8>) -> Result<(), NoMemory>
    requires { IsPacketWritable (code, width, commands.now) }
    ensures { OnOk result
        (out.new.items ≡ out.old.items ++ packet_item (code, width, commands.now)) }
{
    if commands.len() <= 241 {
        append_short(code, width, commands, out)
    } else {
        append_long(code, width, commands, out)
    }
}

// Appends the packets.
fn append_packets(packets: &[(u8, i32, Vec<u8>)], out: &mut Vec<u8>) -> Result<(), NoMemory>
    requires { AllByRecursion IsPacketWritable (map (λ p. (p.0, p.1, p.2.items)) packets.now) }
    ensures { OnOk result (out.new.items ≡ out.old.items
        ++ flat_map packet_item (map (λ p. (p.0, p.1, p.2.items)) packets.now)) }
{
    for i in 0..packets.len() {
        let packet = &packets[i];
        append_packet(packet.0, packet.1, &packet.2, out)?;
    }
    Ok(())
}

// Appends the closing command, at least once, up to a multiple of four.
fn append_closing(out: &mut Vec<u8>) -> Result<(), NoMemory>
    ensures { OnOk result (out.new.items
        ≡ out.old.items ++ replicate (closing_after (length out.old.items)) 248) }
{
    let count = 1 + (4 - (out.len() % 4 + 1) % 4) % 4;
    for _ in 0..count {
        out.push(248)?;
    }
    Ok(())
}

/// A VF file of these local fonts and packets, each a code, a width and commands. Checksums are 0,
/// and the design size is 10 points; a width is a fix_word from 0 to 2^24 - 1. Local numbers and
/// codes are distinct, factors and points are at most 2^31 - 1, an area lies in its name, whose
/// rest has at most 255 bytes, and commands have less than 2^32 bytes.
///
/// It is a VF file where also each factor is from 1 to 2^24 - 1, the points are above 0, and the
/// commands of each packet are sound: commands that may stand there, with each push closed by a pop
/// and each motion and side of a rule from -2^24 to 2^24 - 1. Read again, it gives the local fonts
/// and the commands.
///
/// `NoMemory` when out of memory. Knuth, VFtoVP, "Virtual fonts".
pub fn vf_bytes(
    alloc: Global,
    locals: &[LocalDef],
    packets: &[(u8, i32, Vec<u8>)],
) -> Result<Vec<u8>, NoMemory>
    requires locals { AllByRecursion IsLocalWritable locals.now }
    requires numbers { IsTrue (have_own_numbers locals.now) }
    requires packets { AllByRecursion IsPacketWritable
        (map (λ p. (p.0, p.1, p.2.items)) packets.now) }
    requires codes { IsTrue (have_own_codes (map (λ p. (p.0, p.1, p.2.items)) packets.now)) }
    ensures bytes { IfOk result (λ bytes. bytes.items
        ≡ vf_file locals.now (map (λ p. (p.0, p.1, p.2.items)) packets.now)) }
    ensures file { IfOk result (λ bytes. AllByRecursion IsLocalSound locals.now
        → AllByRecursion IsPacketSound (map (λ p. (p.0, p.1, p.2.items)) packets.now)
        → IsFileOf locals.now (map (λ p. (p.0, p.1, p.2.items)) packets.now) bytes.items) }
    ensures read_again { IfOk result (λ bytes. (items : List (List ℕ)) → IsVfFile bytes.items items
        → GivesFont locals.now (map (λ p. (p.0, p.1, p.2.items)) packets.now) items) }
{
    let mut out = Vec::new(alloc);
    out.extend_from_slice(&[0xf7, 0xca, 0, 0, 0, 0, 0, 0, 0xa0, 0, 0])?;
    append_locals(alloc, locals, &mut out)?;
    append_packets(packets, &mut out)?;
    append_closing(&mut out)?;
    Ok(out)
}
