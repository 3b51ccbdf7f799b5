//! Shortest spellings, written after other bytes and read back.
ghost use Rattle.std.specs.Prelude.{IsTrue};
ghost use Rattle.dvi_commands.specs.Spelling.{value_of_command};
ghost use Rattle.dvi_commands.specs.Writing.{IsAreaInName, IsRestShort, IsSpecialShort, IsTextShort};

use super::shown::{read, show};
use dvi_commands::{Command, Context, FontDef, write_command};
use std::alloc::Global;
use std::test::Fail;

// Where a command stands, the command, and its shortest spelling.
static ROWS: [(Context, Command<'static>, &[u8]); 44] = [
    // characters
    (Context::Page, Command::Set(0), b"\x00"),
    (Context::Page, Command::Set(65), b"\x41"),
    (Context::Page, Command::Set(127), b"\x7f"),
    (Context::Page, Command::Set(128), b"\x80\x80"),
    (Context::Page, Command::Set(200), b"\x80\xc8"),
    (Context::Page, Command::Set(256), b"\x81\x01\x00"),
    (Context::Page, Command::Set(65_536), b"\x82\x01\x00\x00"),
    (
        Context::Page,
        Command::Set(16_777_216),
        b"\x83\x01\x00\x00\x00",
    ),
    (Context::Page, Command::Set(-1), b"\x83\xff\xff\xff\xff"),
    (Context::Page, Command::Put(0), b"\x85\x00"),
    (Context::Page, Command::Put(65_535), b"\x86\xff\xff"),
    (Context::Page, Command::Put(16_777_215), b"\x87\xff\xff\xff"),
    (Context::Page, Command::Put(-2), b"\x88\xff\xff\xff\xfe"),
    // motions
    (Context::Page, Command::Right(-1), b"\x8f\xff"),
    (Context::Page, Command::Right(-128), b"\x8f\x80"),
    (Context::Page, Command::Right(128), b"\x90\x00\x80"),
    (Context::Page, Command::Right(-32_769), b"\x91\xff\x7f\xff"),
    (
        Context::Page,
        Command::Right(8_388_608),
        b"\x92\x00\x80\x00\x00",
    ),
    (Context::Page, Command::W(0), b"\x94\x00"),
    (Context::Page, Command::X(-129), b"\x9a\xff\x7f"),
    (Context::Page, Command::Down(32_768), b"\x9f\x00\x80\x00"),
    (Context::Page, Command::Y(-8_388_608), b"\xa4\x80\x00\x00"),
    (
        Context::Page,
        Command::Z(-2_147_483_648),
        b"\xaa\x80\x00\x00\x00",
    ),
    // without fields
    (Context::Page, Command::Nop, b"\x8a"),
    (Context::Page, Command::Eop, b"\x8c"),
    (Context::Page, Command::Push, b"\x8d"),
    (Context::Page, Command::Pop, b"\x8e"),
    (Context::Page, Command::W0, b"\x93"),
    (Context::Page, Command::X0, b"\x98"),
    (Context::Page, Command::Y0, b"\xa1"),
    (Context::Page, Command::Z0, b"\xa6"),
    // fonts
    (Context::Page, Command::Font(0), b"\xab"),
    (Context::Page, Command::Font(63), b"\xea"),
    (Context::Page, Command::Font(64), b"\xeb\x40"),
    (Context::Page, Command::Font(-3), b"\xee\xff\xff\xff\xfd"),
    (
        Context::Page,
        Command::Define(FontDef {
            number: 256,
            check: 4_294_967_295,
            size: 128,
            design: -1,
            area: 2,
            name: b"abdot",
        }),
        b"\xf4\x01\x00\xff\xff\xff\xff\x00\x00\x00\x80\xff\xff\xff\xff\x02\x03abdot",
    ),
    // rules and specials
    (
        Context::Page,
        Command::SetRule {
            height: 4,
            width: -6,
        },
        b"\x84\x00\x00\x00\x04\xff\xff\xff\xfa",
    ),
    (Context::Page, Command::Special(b""), b"\xef\x00"),
    (Context::Page, Command::Special(b"hi"), b"\xef\x02hi"),
    // a document of one page
    (
        Context::Start,
        Command::Pre {
            id: 2,
            num: 1270,
            den: 3,
            mag: 1000,
            text: b"hi",
        },
        b"\xf7\x02\x00\x00\x04\xf6\x00\x00\x00\x03\x00\x00\x03\xe8\x02hi",
    ),
    (
        Context::Between,
        Command::Bop {
            counts: [1, 0, 0, 0, 0, 0, 0, 0, 0, -2],
            back: -1,
        },
        b"\x8b\x00\x00\x00\x01\0\0\0\0\0\0\0\0\0\0\0\0\0\0\0\0\0\0\0\0\0\0\0\0\0\0\0\0\0\0\0\0\
        \xff\xff\xff\xfe\xff\xff\xff\xff",
    ),
    (
        Context::Page,
        Command::PutRule {
            height: 4,
            width: 6,
        },
        b"\x89\x00\x00\x00\x04\x00\x00\x00\x06",
    ),
    (
        Context::Between,
        Command::Post {
            back: 15,
            num: 1270,
            den: 3,
            mag: 1000,
            tallest: 7,
            widest: -8,
            deepest: 9,
            pages: 258,
        },
        b"\xf8\x00\x00\x00\x0f\x00\x00\x04\xf6\x00\x00\x00\x03\x00\x00\x03\xe8\x00\x00\x00\x07\
        \xff\xff\xff\xf8\x00\x09\x01\x02",
    ),
    (
        Context::Post,
        Command::PostPost { post: 70, id: 2 },
        b"\xf9\x00\x00\x00\x46\x02",
    ),
];

// Whether the texts fit into the fields for their lengths.
fn is_writable(command: &Command) -> bool
    ensures special { IsTrue result → IsSpecialShort (value_of_command command.now) }
    ensures text { IsTrue result → IsTextShort (value_of_command command.now) }
    ensures area { IsTrue result → IsAreaInName (value_of_command command.now) }
    ensures rest { IsTrue result → IsRestShort (value_of_command command.now) }
{
    match command {
        Command::Special(text) => text.len() <= 0x7fff_ffff,
        Command::Pre { text, .. } => text.len() <= 255,
        Command::Define(def) => {
            let area = usize::from(def.area);
            area <= def.name.len() && def.name.len() - area <= 255
        }
        _ => true,
    }
}

// The command after the bytes `ab`.
fn written(alloc: Global, command: &Command) -> Result<Vec<u8>, Fail> {
    if !is_writable(command) {
        return Err(Fail::from("a text is too long"));
    }
    let mut out = Vec::from_slice(alloc, b"ab")?;
    write_command(alloc, command, &mut out)?;
    Ok(out)
}

// Other bytes after them.
fn after_others(alloc: Global, spelling: &[u8]) -> Result<Vec<u8>, Fail> {
    let mut out = Vec::from_slice(alloc, b"ab")?;
    out.extend_from_slice(spelling)?;
    Ok(out)
}

#[test]
fn writes_the_shortest_spellings(rt: HostRuntime) -> Result<(), Fail> {
    for (context, command, spelling) in ROWS.iter() {
        let out = written(rt.alloc(), command)?;
        let wanted = after_others(rt.alloc(), spelling)?;
        assert_eq!(rt;
            (out.as_slice(), read(&out, 2, *context)),
            (wanted.as_slice(), Some(Ok((show(command), wanted.len()))))
        );
    }
    Ok(())
}
