//! Where commands may not stand, and what is no command.
use dvi_commands::{CommandFault, Context, read_command};

fn fault_in(context: Context, bytes: &[u8]) -> Option<CommandFault> {
    read_command(bytes, 0, context).err()
}

static CONTEXTS: [Context; 5] = [
    Context::Start,
    Context::Between,
    Context::Page,
    Context::Packet,
    Context::Post,
];

// The first and the last opcode of each stretch that may stand in a context.
static ALLOWED: [(Context, u8, u8); 18] = [
    (Context::Start, 247, 247),
    (Context::Between, 138, 138),
    (Context::Between, 139, 139),
    (Context::Between, 243, 246),
    (Context::Between, 248, 248),
    (Context::Page, 0, 131),
    (Context::Page, 132, 138),
    (Context::Page, 140, 170),
    (Context::Page, 171, 238),
    (Context::Page, 239, 246),
    (Context::Packet, 0, 131),
    (Context::Packet, 132, 138),
    (Context::Packet, 141, 170),
    (Context::Packet, 171, 238),
    (Context::Packet, 239, 242),
    (Context::Post, 138, 138),
    (Context::Post, 243, 246),
    (Context::Post, 249, 249),
];

fn may_stand(context: Context, opcode: u8) -> bool {
    for (place, first, last) in ALLOWED.iter() {
        if *place == context && *first <= opcode && opcode <= *last {
            return true;
        }
    }
    false
}

fn wanted(context: Context, opcode: u8) -> Option<CommandFault> {
    if may_stand(context, opcode) {
        None
    } else if opcode >= 250 {
        Some(CommandFault::Undefined(opcode))
    } else {
        Some(CommandFault::Misplaced(opcode))
    }
}

// Each opcode is refused in the context where it may not stand, and read where it may: with fields
// of zeros every command is whole.
#[test]
fn each_opcode_in_each_context(rt: HostRuntime) {
    let mut bytes = [0; 45];
    for context in CONTEXTS.iter() {
        for opcode in 0..=255 {
            bytes[0] = opcode;
            assert_eq!(rt;
                fault_in(*context, &bytes),
                wanted(*context, opcode),
                "opcode {opcode}"
            );
        }
    }
}

// The length of a special is judged when it is whole, and before its text.
static ROWS: [(Context, &[u8], CommandFault); 11] = [
    (Context::Page, &[], CommandFault::Short),
    (Context::Page, &[0xfa], CommandFault::Undefined(250)),
    (Context::Page, &[0xff], CommandFault::Undefined(255)),
    (Context::Page, &[0xf8], CommandFault::Misplaced(248)),
    (Context::Page, &[0x90, 0x00], CommandFault::Short),
    (
        Context::Page,
        &[0xf2, 0xff, 0xff, 0xff, 0xff],
        CommandFault::NegativeLength,
    ),
    (
        Context::Page,
        &[0xf2, 0x80, 0x00, 0x00, 0x00, 0x41],
        CommandFault::NegativeLength,
    ),
    (
        Context::Page,
        &[0xf2, 0x7f, 0xff, 0xff, 0xff, 0x41],
        CommandFault::Short,
    ),
    (
        Context::Page,
        &[0xf2, 0xff, 0xff, 0xff],
        CommandFault::Short,
    ),
    (Context::Page, &[0xef, 0xff], CommandFault::Short),
    (
        Context::Between,
        &[0xf2, 0xff, 0xff, 0xff, 0xff],
        CommandFault::Misplaced(242),
    ),
];

#[test]
fn faults_are_told(rt: HostRuntime) {
    for (context, bytes, fault) in ROWS.iter() {
        assert_eq!(rt; fault_in(*context, bytes), Some(*fault), "of {bytes:?}");
    }
}
