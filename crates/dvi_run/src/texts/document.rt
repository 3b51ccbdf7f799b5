//! The faults of a document in words.
ghost use Rattle.std.specs.Prelude.{◌≡◌, ◌++◌, codes};
ghost use Rattle.dvi_run.specs.DocTexts.{command_text, doc_place, doc_text, field_text};
ghost use Rattle.dvi_run.specs.Names.{name_text};

use crate::texts::name::Name;
use dvi_commands::CommandFault;
use page_index::{DocFault, PostField};

// The name of the fault of a command.
fn command_name(fault: CommandFault) -> Name
    ensures { name_text result ≡ codes "command " ++ command_text fault }
{
    match fault {
        CommandFault::Short => Name::text_only(b"command short"),
        CommandFault::Undefined(opcode) => {
            Name::numbered(b"command undefined ", i64::from(opcode))
        }
        CommandFault::Misplaced(opcode) => {
            Name::numbered(b"command misplaced ", i64::from(opcode))
        }
        CommandFault::NegativeLength => Name::text_only(b"command negative length"),
    }
}

// The name of the fault of a postamble's field.
fn field_name(field: PostField) -> Name
    ensures { name_text result ≡ codes "postamble " ++ field_text field }
{
    Name::text_only(match field {
        PostField::Pointer => b"postamble pointer",
        PostField::Num => b"postamble num",
        PostField::Den => b"postamble den",
        PostField::Mag => b"postamble mag",
        PostField::Pages => b"postamble pages",
    })
}

/// The name of a document's fault.
pub fn doc_name(fault: &DocFault) -> Name
    ensures { name_text result ≡ doc_text fault.now }
{
    match *fault {
        DocFault::Truncated { .. } => Name::text_only(b"truncated"),
        DocFault::Preamble { .. } => Name::text_only(b"preamble"),
        DocFault::Command { fault, .. } => command_name(fault),
        DocFault::BackPointer { .. } => Name::text_only(b"back pointer"),
        DocFault::FontClash { number, .. } => Name::numbered(b"font clash ", i64::from(number)),
        DocFault::Postamble { field, .. } => field_name(field),
        DocFault::Trailer { .. } => Name::text_only(b"trailer"),
        DocFault::FontDef { number, .. } => {
            Name::numbered(b"font definition ", i64::from(number))
        }
        DocFault::Scale { .. } => Name::text_only(b"scale"),
        DocFault::TooManyPages { .. } => Name::text_only(b"too many pages"),
        DocFault::TooLong { .. } => Name::text_only(b"too long"),
    }
}

/// The byte of the document where a fault is.
pub fn place(fault: &DocFault) -> usize
    ensures { result ≡ doc_place fault.now }
{
    match *fault {
        DocFault::Truncated { at }
        | DocFault::Preamble { at }
        | DocFault::Command { at, .. }
        | DocFault::BackPointer { at }
        | DocFault::FontClash { at, .. }
        | DocFault::Postamble { at, .. }
        | DocFault::Trailer { at }
        | DocFault::FontDef { at, .. }
        | DocFault::Scale { at }
        | DocFault::TooManyPages { at }
        | DocFault::TooLong { at } => at,
    }
}
