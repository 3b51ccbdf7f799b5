//! Virtual fonts.
use outside::FontName;
use sample_maker::vf_bytes;
use std::test::Fail;
use vf_reader::{LocalDef, VfFont};

static TWO_FONTS: [u8; 60] = [
    0xf7, 0xca, 0, 0, 0, 0, 0, 0, 0xa0, 0, 0, // the preamble
    0xf3, 0, 0, 0, 0, 0, 0, 0x10, 0, 0, 0, 0xf6, 0xae, 0x7d, 0, 3, 0x64, 0x6f, 0x74, // dot
    0xf3, 1, 0, 0, 0, 0, 0, 0x10, 0, 0, 0, 0xf6, 0xae, 0x7d, 0, 3, 0x62, 0x61, 0x72, // bar
    3, 0x41, 2, 0x80, 0, 0x41, 0xac, 0x41, // the packet
    0xf8, 0xf8, 0xf8,
];

// Two local fonts at their own size, and a character that sets one of each.
#[test]
fn a_character_of_two_fonts(rt: HostRuntime) -> Result<(), Fail> {
    let alloc = rt.alloc();
    let dot = LocalDef {
        number: 0,
        area: 0,
        name: FontName::new(alloc, b"dot")?,
        factor: 0x10_0000,
        points: 0xf6_ae7d,
    };
    let bar = LocalDef {
        number: 1,
        area: 0,
        name: FontName::new(alloc, b"bar")?,
        factor: 0x10_0000,
        points: 0xf6_ae7d,
    };
    let commands = Vec::from_slice(alloc, &[0x41, 0xac, 0x41])?;
    let bytes = vf_bytes(alloc, &[dot, bar], &[(65, 0x2_8000, commands)])?;
    let font = VfFont::read(alloc, &bytes)?;
    assert_eq!(rt;
        (
            bytes.as_slice(),
            font.first_local(),
            font.packet(65),
            font.packet(66),
        ),
        (
            TWO_FONTS.as_slice(),
            Some(0),
            Some([0x41, 0xac, 0x41].as_slice()),
            None,
        )
    );
    Ok(())
}
