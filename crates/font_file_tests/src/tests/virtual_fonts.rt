//! VF files, read, and what is wrong with changed ones.

use super::joined;
use dvi_commands::CommandFault;
use std::alloc::{AllocError as NoMemory, Global};
use std::test::Fail;
use vf_reader::{LocalDef, VfFault, VfFont, VfStop};

// The preamble that the fonts begin with: no comment, no checksum, ten points.
const BEGIN: [u8; 11] = [0xf7, 0xca, 0, 0, 0, 0, 0, 0, 0xa0, 0, 0];

// Two closing commands.
const END: [u8; 2] = [0xf8, 0xf8];

// A local font: its number, the length of its area, its name, and its two sizes.
type Local<'a> = Option<(i32, u8, &'a [u8], u32, u32)>;

// A packet or `none`, the number of the first local font, how many local fonts there are, and one
// of them.
type Seen<'a> = (&'a [u8], Option<i32>, usize, Local<'a>);

// Local fonts `dot` and `bar` at the font's own size; 65 is 65 of both.
const DUO: [u8; 46] = [
    0xf3, 0, 0, 0, 0, 0, 0, 0x10, 0, 0, 0, 0xf6, 0xae, 0x7d, 0, 3, 0x64, 0x6f, 0x74, //
    0xf3, 1, 0, 0, 0, 0, 0, 0x10, 0, 0, 0, 0xf6, 0xae, 0x7d, 0, 3, 0x62, 0x61, 0x72, //
    3, 65, 2, 0x80, 0, 65, 172, 65,
];

const THIN: [u8; 27] = [
    0xf3, 0, 0, 0, 0, 0, 0, 0x10, 0, 0, 0, 0xf6, 0xae, 0x7d, 0, 4, 0x74, 0x68, 0x69, 0x6e, //
    2, 65, 0, 0xc0, 0, 65, 65,
];

const LOOP: [u8; 27] = [
    0xf3, 0, 0, 0, 0, 0, 0, 0x10, 0, 0, 0, 0xf6, 0xae, 0x7d, 0, 4, 0x6c, 0x6f, 0x6f, 0x70, //
    2, 65, 1, 0, 0, 65, 65,
];

const BOX: [u8; 20] = [
    1, 65, 1, 0, 0, 65, 9, 66, 1, 0, 0, 132, 0, 1, 0, 0, 0, 1, 0, 0,
];

// Short packets of the codes 65 and 66, and long ones of 65 and twice 321.
const AGAIN: [u8; 54] = [
    1, 65, 0, 0, 0, 1, 1, 66, 0, 0, 0, 2, //
    0xf2, 0, 0, 0, 1, 0, 0, 0, 65, 0, 0, 0, 0, 3, //
    0xf2, 0, 0, 0, 1, 0, 0, 1, 65, 0, 0, 0, 0, 4, //
    0xf2, 0, 0, 0, 1, 0, 0, 1, 65, 0, 0, 0, 0, 5,
];

// A font's items, a code, a number, and what the font has of them.
static FONTS: [(&[u8], u32, i32, Seen<'static>); 12] = [
    (
        &DUO,
        65,
        0,
        (
            &[65, 172, 65],
            Some(0),
            2,
            Some((0, 0, b"dot", 1048576, 16166525)),
        ),
    ),
    (
        &DUO,
        65,
        1,
        (
            &[65, 172, 65],
            Some(0),
            2,
            Some((1, 0, b"bar", 1048576, 16166525)),
        ),
    ),
    (&DUO, 65, 2, (&[65, 172, 65], Some(0), 2, None)),
    (
        &THIN,
        65,
        0,
        (
            &[65, 65],
            Some(0),
            1,
            Some((0, 0, b"thin", 1048576, 16166525)),
        ),
    ),
    (
        &LOOP,
        65,
        0,
        (
            &[65, 65],
            Some(0),
            1,
            Some((0, 0, b"loop", 1048576, 16166525)),
        ),
    ),
    (&BOX, 65, 0, (&[65], None, 0, None)),
    (&BOX, 66, 0, (&[132, 0, 1, 0, 0, 0, 1, 0, 0], None, 0, None)),
    // The last packet of a code.
    (&AGAIN, 65, 0, (&[3], None, 0, None)),
    (&AGAIN, 66, 0, (&[2], None, 0, None)),
    (&AGAIN, 321, 0, (&[5], None, 0, None)),
    // No items, and what isn't looked at after the first closing command.
    (&[0xf8, 0xf8], 0, 0, (b"none", None, 0, None)),
    (&[0xf8, 0xf7], 0, 0, (b"none", None, 0, None)),
];

fn fields(local: Option<&LocalDef>) -> Local<'_> {
    let local = local?;
    Some((
        local.number,
        local.area,
        local.name.bytes(),
        local.factor,
        local.points,
    ))
}

fn seen(font: &VfFont, code: u32, number: i32) -> Seen<'_> {
    (
        font.packet(code).unwrap_or(b"none"),
        font.first_local(),
        font.locals().len(),
        fields(font.local(number)),
    )
}

// The font, or the fault, of a file of these parts.
fn read(alloc: Global, parts: &[&[u8]]) -> Result<VfFont, VfStop> {
    let bytes = joined(alloc, parts)?;
    VfFont::read(alloc, &bytes)
}

#[test]
fn virtual_fonts(rt: HostRuntime) -> Result<(), Fail> {
    for (row, (items, code, number, want)) in FONTS.iter().enumerate() {
        let font = read(rt.alloc(), &[&BEGIN, items, &END])?;
        assert_eq!(rt; seen(&font, *code, *number), *want, "row {row}");
    }
    Ok(())
}

// The definition of the local font 5, with these low bytes of the two sizes: 1 and 1, 0 and 1, 1
// and 0, 2 and 1, and 1 and 2.
const LOCAL: [u8; 17] = [0xf3, 5, 0, 0, 0, 0, 0, 0, 0, 1, 0, 0, 0, 1, 0, 1, 97];

const NO_FACTOR: [u8; 17] = [0xf3, 5, 0, 0, 0, 0, 0, 0, 0, 0, 0, 0, 0, 1, 0, 1, 97];

const NO_POINTS: [u8; 17] = [0xf3, 5, 0, 0, 0, 0, 0, 0, 0, 1, 0, 0, 0, 0, 0, 1, 97];

const LARGER: [u8; 17] = [0xf3, 5, 0, 0, 0, 0, 0, 0, 0, 2, 0, 0, 0, 1, 0, 1, 97];

const OTHER_POINTS: [u8; 17] = [0xf3, 5, 0, 0, 0, 0, 0, 0, 0, 1, 0, 0, 0, 2, 0, 1, 97];

// What a packet of character 65 with five bytes of commands begins with.
const FIVE: [u8; 5] = [5, 65, 0, 0, 0];

const UNBALANCED: Option<VfFault> = Some(VfFault::Unbalanced(65));

const DIMENSION: Option<VfFault> = Some(VfFault::Dimension(65));

const LOCAL_DEF: Option<VfFault> = Some(VfFault::LocalDef(5));

// A file in four parts, and its first fault.
static FAULTS: [([&'static [u8]; 4], Option<VfFault>); 21] = [
    // Commands that aren't read, and pushes and pops that don't match, the first one from the
    // left.
    (
        [&BEGIN, &FIVE, &[65, 250, 142, 65, 65], &END],
        Some(VfFault::Packet(65, CommandFault::Undefined(250))),
    ),
    (
        [&BEGIN, &FIVE, &[140, 65, 65, 65, 65], &END],
        Some(VfFault::Packet(65, CommandFault::Misplaced(140))),
    ),
    (
        [&BEGIN, &FIVE, &[65, 65, 65, 132, 0], &END],
        Some(VfFault::Packet(65, CommandFault::Short)),
    ),
    ([&BEGIN, &FIVE, &[142, 250, 65, 65, 65], &END], UNBALANCED),
    ([&BEGIN, &FIVE, &[141, 141, 142, 65, 65], &END], UNBALANCED),
    ([&BEGIN, &FIVE, &[141, 142, 142, 141, 65], &END], UNBALANCED),
    // Motions of 2^24 - 1 and -2^24, and of one unit more. The number of a character is none.
    ([&BEGIN, &FIVE, &[146, 0, 255, 255, 255], &END], None),
    ([&BEGIN, &FIVE, &[146, 255, 0, 0, 0], &END], None),
    ([&BEGIN, &FIVE, &[146, 1, 0, 0, 0], &END], DIMENSION),
    ([&BEGIN, &FIVE, &[160, 254, 255, 255, 255], &END], DIMENSION),
    ([&BEGIN, &FIVE, &[131, 1, 0, 0, 0], &END], None),
    // Two definitions of a local font.
    ([&BEGIN, &LOCAL, &LOCAL, &END], None),
    ([&BEGIN, &NO_FACTOR, &NO_FACTOR, &END], LOCAL_DEF),
    ([&BEGIN, &NO_POINTS, &NO_POINTS, &END], LOCAL_DEF),
    ([&BEGIN, &LOCAL, &LARGER, &END], LOCAL_DEF),
    ([&BEGIN, &LOCAL, &OTHER_POINTS, &END], LOCAL_DEF),
    // A file is looked at from the beginning: the preamble, a packet, an opcode, and the end.
    ([&[0xf7, 0x59], &[], &[], &[]], Some(VfFault::Preamble)),
    ([&BEGIN, &[], &[], &[]], Some(VfFault::Short)),
    ([&BEGIN, &[1, 65, 0, 0, 0], &[142, 0xf7], &END], UNBALANCED),
    (
        [&BEGIN, &[1, 65, 0, 0, 0], &[65, 0xff], &END],
        Some(VfFault::Misplaced(255)),
    ),
    (
        [&BEGIN, &[9, 65, 0, 0, 0], &[142], &END],
        Some(VfFault::Short),
    ),
];

// The first fault of a file, if it has one.
fn fault(alloc: Global, parts: &[&[u8]]) -> Result<Option<VfFault>, NoMemory> {
    match read(alloc, parts) {
        Ok(_) => Ok(None),
        Err(VfStop::Fault(fault)) => Ok(Some(fault)),
        Err(VfStop::NoMemory) => Err(NoMemory),
    }
}

#[test]
fn faults_of_virtual_fonts(rt: HostRuntime) -> Result<(), Fail> {
    for (row, (parts, want)) in FAULTS.iter().enumerate() {
        assert_eq!(rt; fault(rt.alloc(), parts)?, *want, "row {row}");
    }
    Ok(())
}

// The head of a long packet of the code 65, which has 8,000,000 bytes.
const LONG: [u8; 13] = [0xf2, 0, 0x7a, 0x12, 0, 0, 0, 0, 65, 0, 0, 0, 0];

// How many bytes the packet of the code 65 has, where each is the command that does nothing.
fn idle(font: &VfFont) -> Option<usize> {
    let packet = font.packet(65)?;
    packet
        .iter()
        .all(|byte| *byte == 0x8a)
        .then_some(packet.len())
}

#[test]
fn a_packet_of_eight_million_commands(rt: HostRuntime) -> Result<(), Fail> {
    let commands = vec![in rt.alloc(); 0x8au8; 8_000_000]?;
    let bytes = joined(rt.alloc(), &[&BEGIN, &LONG, &commands, &END])?;
    let font = VfFont::read(rt.alloc(), &bytes)?;
    assert_eq!(rt; idle(&font), Some(8_000_000));
    Ok(())
}
