//! What is wrong with a VF file, in words.
ghost use Rattle.std.specs.Prelude.{◌≡◌, ◌++◌, codes};
ghost use Rattle.dvi_run.specs.Names.{name_text};
ghost use Rattle.dvi_run.specs.VfTexts.{vf_text};

use crate::texts::name::Name;
use dvi_commands::CommandFault;
use vf_reader::VfFault;

// The name of the fault of a command in a character's packet.
fn packet_name(code: u32, fault: CommandFault) -> Name
    ensures { name_text result ≡ codes "vf " ++ vf_text (VfFault.Packet code fault) }
{
    let code = i64::from(code);
    match fault {
        CommandFault::Short => Name::followed(b"vf packet ", code, b" short", None),
        CommandFault::Undefined(opcode) => {
            let opcode = Some(i64::from(opcode));
            Name::followed(b"vf packet ", code, b" undefined ", opcode)
        }
        CommandFault::Misplaced(opcode) => {
            let opcode = Some(i64::from(opcode));
            Name::followed(b"vf packet ", code, b" misplaced ", opcode)
        }
        CommandFault::NegativeLength => {
            Name::followed(b"vf packet ", code, b" negative length", None)
        }
    }
}

/// The name of a VF file's fault.
pub fn vf_name(fault: VfFault) -> Name
    ensures { name_text result ≡ codes "vf " ++ vf_text fault }
{
    match fault {
        VfFault::Short => Name::text_only(b"vf short"),
        VfFault::Preamble => Name::text_only(b"vf preamble"),
        VfFault::Misplaced(opcode) => Name::numbered(b"vf misplaced ", i64::from(opcode)),
        VfFault::Packet(code, fault) => packet_name(code, fault),
        VfFault::Unbalanced(code) => Name::numbered(b"vf unbalanced ", i64::from(code)),
        VfFault::LocalDef(number) => Name::numbered(b"vf local font ", i64::from(number)),
        VfFault::Dimension(code) => Name::numbered(b"vf dimension ", i64::from(code)),
    }
}
