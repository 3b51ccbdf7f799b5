//! Commands read from bytes.
use super::page_rows;
use super::shown::{Shown, cut_not_short, padded, read, show};
use dvi_commands::{Command, Context, command_at};

// A whole document of one page with one rule.
const ONE_RULE: [u8; 112] = [
    247, 2, 0, 0, 4, 246, 0, 0, 0, 3, 0, 0, 3, 232, 0, 139, 0, 0, 0, 1, 0, 0, 0, 0, 0, 0, 0, 0, 0,
    0, 0, 0, 0, 0, 0, 0, 0, 0, 0, 0, 0, 0, 0, 0, 0, 0, 0, 0, 0, 0, 0, 0, 0, 0, 0, 0, 255, 255, 255,
    255, 137, 0, 0, 0, 4, 0, 0, 0, 6, 140, 248, 0, 0, 0, 15, 0, 0, 4, 246, 0, 0, 0, 3, 0, 0, 3,
    232, 0, 0, 0, 0, 0, 0, 0, 0, 0, 0, 0, 1, 249, 0, 0, 0, 70, 2, 223, 223, 223, 223, 223, 223,
    223,
];

// Motions of -1, of 128, and of 0 that sets w.
const MOTIONS: [u8; 7] = [0x8f, 0xff, 0x90, 0x00, 0x80, 0x94, 0x00];

// Bytes, a place, and the command there with its context and the place after it.
static ROWS: [(&[u8], usize, Context, Command<'static>, usize); 10] = [
    (
        &ONE_RULE,
        0,
        Context::Start,
        Command::Pre {
            id: 2,
            num: 1270,
            den: 3,
            mag: 1000,
            text: &[],
        },
        15,
    ),
    (
        &ONE_RULE,
        15,
        Context::Between,
        Command::Bop {
            counts: [1, 0, 0, 0, 0, 0, 0, 0, 0, 0],
            back: -1,
        },
        60,
    ),
    (
        &ONE_RULE,
        60,
        Context::Page,
        Command::PutRule {
            height: 4,
            width: 6,
        },
        69,
    ),
    (&ONE_RULE, 69, Context::Page, Command::Eop, 70),
    (
        &ONE_RULE,
        70,
        Context::Between,
        Command::Post {
            back: 15,
            num: 1270,
            den: 3,
            mag: 1000,
            tallest: 0,
            widest: 0,
            deepest: 0,
            pages: 1,
        },
        99,
    ),
    (
        &ONE_RULE,
        99,
        Context::Post,
        Command::PostPost { post: 70, id: 2 },
        105,
    ),
    (
        &[
            247, 2, 0, 0, 4, 246, 0, 0, 0, 3, 0, 0, 3, 232, 2, b'h', b'i', 138,
        ],
        0,
        Context::Start,
        Command::Pre {
            id: 2,
            num: 1270,
            den: 3,
            mag: 1000,
            text: b"hi",
        },
        17,
    ),
    (&MOTIONS, 0, Context::Page, Command::Right(-1), 2),
    (&MOTIONS, 2, Context::Page, Command::Right(128), 5),
    (&MOTIONS, 5, Context::Page, Command::W(0), 7),
];

// Each command is read from its place on, and each part of it is too short.
#[test]
fn reads_commands_at_places(rt: HostRuntime) {
    for (bytes, at, context, command, end) in ROWS.iter() {
        let whole = bytes.get(*at..*end).unwrap_or(&[]);
        assert_eq!(rt;
            (read(bytes, *at, *context), cut_not_short(whole, *context)),
            (Some(Ok((show(command), *end))), None)
        );
    }
}

// All the bytes are the command, and each part of them is too short.
#[test]
fn reads_each_command_of_a_page(rt: HostRuntime) {
    for (bytes, command) in page_rows::ROWS.iter() {
        assert_eq!(rt;
            (
                read(bytes, 0, Context::Page),
                cut_not_short(bytes, Context::Page)
            ),
            (Some(Ok((show(command), bytes.len()))), None)
        );
    }
}

// Motions, each with the opcode of its shortest spelling.
static OPCODES: [(u8, &str); 6] = [
    (143, "Right"),
    (148, "W"),
    (153, "X"),
    (157, "Down"),
    (162, "Y"),
    (167, "Z"),
];

// How many bytes more a number has than one, and the numbers that as many of the bytes 1, 2, 3, 4
// and of the bytes 128, 0, 0, 0 spell.
static WIDTHS: [(u8, i32, i32); 4] = [
    (0, 1, -128),
    (1, 258, -32_768),
    (2, 66_051, -8_388_608),
    (3, 16_909_060, i32::MIN),
];

fn motion(name: &'static str, by: i32) -> Shown {
    Shown {
        name,
        numbers: padded(&[by]),
        text: [0; 8],
        length: 0,
    }
}

#[test]
fn reads_motions_of_each_width_and_sign(rt: HostRuntime) {
    for (opcode, name) in OPCODES.iter() {
        for (more, up, down) in WIDTHS.iter() {
            let opcode = opcode.saturating_add(*more);
            let (rising, least) = ([opcode, 1, 2, 3, 4], [opcode, 128, 0, 0, 0]);
            let next = usize::from(*more).saturating_add(2);
            assert_eq!(rt;
                (
                    read(&rising, 0, Context::Page),
                    read(&least, 0, Context::Page)
                ),
                (
                    Some(Ok((motion(name, *up), next))),
                    Some(Ok((motion(name, *down), next))),
                )
            );
        }
    }
}

#[test]
fn goes_on_after_a_command(rt: HostRuntime) {
    let bytes = [0x8f, 0xff, 0x93];
    let (first, place) = command_at(&bytes, 0, Context::Page);
    assert_eq!(rt; (show(&first), place), (motion("Right", -1), 2));
}
