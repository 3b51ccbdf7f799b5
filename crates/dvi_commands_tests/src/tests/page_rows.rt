//! Each command that may stand on a page, in each width.
use dvi_commands::{Command, FontDef};

/// Bytes, and the command that they all are on a page.
pub static ROWS: [(&[u8], Command<'static>); 41] = [
    // characters set
    (&[0x00], Command::Set(0)),
    (&[0x41], Command::Set(65)),
    (&[0x7f], Command::Set(127)),
    (&[0x80, 0xc8], Command::Set(200)),
    (&[0x80, 0xff], Command::Set(255)),
    (&[0x81, 0xff, 0x00], Command::Set(65_280)),
    (&[0x82, 0xff, 0xff, 0xff], Command::Set(16_777_215)),
    (&[0x83, 0xff, 0xff, 0xff, 0xff], Command::Set(-1)),
    (&[0x83, 0x01, 0x00, 0x00, 0x00], Command::Set(16_777_216)),
    // characters put
    (&[0x85, 0x41], Command::Put(65)),
    (&[0x85, 0xff], Command::Put(255)),
    (&[0x86, 0x80, 0x00], Command::Put(32_768)),
    (&[0x87, 0x80, 0x00, 0x00], Command::Put(8_388_608)),
    (
        &[0x88, 0x80, 0x00, 0x00, 0x00],
        Command::Put(-2_147_483_648),
    ),
    // fonts
    (&[0xab], Command::Font(0)),
    (&[0xea], Command::Font(63)),
    (&[0xeb, 0x40], Command::Font(64)),
    (&[0xeb, 0xff], Command::Font(255)),
    (&[0xec, 0xff, 0xff], Command::Font(65_535)),
    (&[0xed, 0xff, 0xff, 0xfe], Command::Font(16_777_214)),
    (&[0xee, 0xff, 0xff, 0xff, 0xfe], Command::Font(-2)),
    // without fields
    (&[0x8a], Command::Nop),
    (&[0x8c], Command::Eop),
    (&[0x8d], Command::Push),
    (&[0x8e], Command::Pop),
    (&[0x93], Command::W0),
    (&[0x98], Command::X0),
    (&[0xa1], Command::Y0),
    (&[0xa6], Command::Z0),
    // rules
    (
        &[0x84, 0x00, 0x00, 0x00, 0x04, 0xff, 0xff, 0xff, 0xfa],
        Command::SetRule {
            height: 4,
            width: -6,
        },
    ),
    (
        &[0x89, 0x80, 0x00, 0x00, 0x00, 0x7f, 0xff, 0xff, 0xff],
        Command::PutRule {
            height: -2_147_483_648,
            width: 2_147_483_647,
        },
    ),
    // specials
    (&[0xef, 0x00], Command::Special(b"")),
    (&[0xef, 0x02, b'h', b'i'], Command::Special(b"hi")),
    (&[0xf0, 0x00, 0x02, b'h', b'i'], Command::Special(b"hi")),
    (
        &[0xf1, 0x00, 0x00, 0x02, b'h', b'i'],
        Command::Special(b"hi"),
    ),
    (
        &[0xf2, 0x00, 0x00, 0x00, 0x02, b'h', b'i'],
        Command::Special(b"hi"),
    ),
    // definitions of `dot` in the area `ab`, 128 units large, of which the checksum is all ones
    (
        b"\xf3\x05\xff\xff\xff\xff\x00\x00\x00\x80\xff\xff\xff\xff\x02\x03abdot",
        Command::Define(FontDef {
            number: 5,
            check: 4_294_967_295,
            size: 128,
            design: -1,
            area: 2,
            name: b"abdot",
        }),
    ),
    (
        b"\xf3\xff\xff\xff\xff\xff\x00\x00\x00\x80\xff\xff\xff\xff\x02\x03abdot",
        Command::Define(FontDef {
            number: 255,
            check: 4_294_967_295,
            size: 128,
            design: -1,
            area: 2,
            name: b"abdot",
        }),
    ),
    (
        b"\xf4\x01\x00\xff\xff\xff\xff\x00\x00\x00\x80\xff\xff\xff\xff\x02\x03abdot",
        Command::Define(FontDef {
            number: 256,
            check: 4_294_967_295,
            size: 128,
            design: -1,
            area: 2,
            name: b"abdot",
        }),
    ),
    (
        b"\xf5\xff\xff\xff\xff\xff\xff\xff\x00\x00\x00\x80\xff\xff\xff\xff\x02\x03abdot",
        Command::Define(FontDef {
            number: 16_777_215,
            check: 4_294_967_295,
            size: 128,
            design: -1,
            area: 2,
            name: b"abdot",
        }),
    ),
    (
        b"\xf6\xff\xff\xff\xfd\xff\xff\xff\xff\x00\x00\x00\x80\xff\xff\xff\xff\x02\x03abdot",
        Command::Define(FontDef {
            number: -3,
            check: 4_294_967_295,
            size: 128,
            design: -1,
            area: 2,
            name: b"abdot",
        }),
    ),
];
