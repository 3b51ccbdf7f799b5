//! What is wrong with a font's files, in words.
ghost use Rattle.std.specs.Prelude.{◌≡◌, ◌++◌, codes};
ghost use Rattle.dvi_run.specs.FontTexts.{font_text, gf_text, kind_text, pk_text, raster_text, tfm_text};
ghost use Rattle.dvi_run.specs.Names.{name_text};

use crate::texts::name::Name;
use crate::texts::virtual_font::vf_name;
use font_decode::{FileKind, FontFault};
use gf_reader::GfFault;
use pk_packets::PkFault;
use pk_runs::RunFault;
use tfm_reader::TfmFault;

// The name of a TFM file's fault.
fn tfm_name(fault: TfmFault) -> Name
    ensures { name_text result ≡ codes "tfm " ++ tfm_text fault }
{
    match fault {
        TfmFault::Short => Name::text_only(b"tfm short"),
        TfmFault::Counts => Name::text_only(b"tfm counts"),
        TfmFault::WidthIndex(code) => Name::numbered(b"tfm width index ", i64::from(code)),
        TfmFault::WidthByte(index) => Name::numbered(b"tfm width byte ", i64::from(index)),
        TfmFault::WidthZero => Name::text_only(b"tfm width zero"),
    }
}

// The name of the fault of a glyph's raster.
fn raster_name(code: u32, fault: RunFault) -> Name
    ensures { name_text result ≡ codes "pk " ++ pk_text (PkFault.Runs code fault) }
{
    let code = i64::from(code);
    match fault {
        RunFault::Short => Name::followed(b"pk runs ", code, b" short", None),
        RunFault::Overrun => Name::followed(b"pk runs ", code, b" overrun", None),
        RunFault::SecondRepeat(row) => {
            let row = Some(i64::from(row));
            Name::followed(b"pk runs ", code, b" second repeat ", row)
        }
        RunFault::TooManyRows => Name::followed(b"pk runs ", code, b" too many rows", None),
    }
}

// The name of a PK file's fault.
fn pk_name(fault: PkFault) -> Name
    ensures { name_text result ≡ codes "pk " ++ pk_text fault }
{
    match fault {
        PkFault::Short => Name::text_only(b"pk short"),
        PkFault::Preamble => Name::text_only(b"pk preamble"),
        PkFault::Undefined(opcode) => Name::numbered(b"pk undefined ", i64::from(opcode)),
        PkFault::TooBig(code) => Name::numbered(b"pk too big ", i64::from(code)),
        PkFault::Runs(code, fault) => raster_name(code, fault),
        PkFault::FontTooBig => Name::text_only(b"pk font too big"),
        PkFault::Length(code) => Name::numbered(b"pk length ", i64::from(code)),
    }
}

// The name of a GF file's fault.
fn gf_name(fault: GfFault) -> Name
    ensures { name_text result ≡ codes "gf " ++ gf_text fault }
{
    match fault {
        GfFault::Short => Name::text_only(b"gf short"),
        GfFault::Preamble => Name::text_only(b"gf preamble"),
        GfFault::Misplaced(opcode) => Name::numbered(b"gf misplaced ", i64::from(opcode)),
        GfFault::TooBig(code) => Name::numbered(b"gf too big ", i64::from(code)),
        GfFault::Outside(code) => Name::numbered(b"gf outside ", i64::from(code)),
        GfFault::FontTooBig => Name::text_only(b"gf font too big"),
    }
}

// The name of the want of a file.
fn missing_name(kind: FileKind) -> Name
    ensures { name_text result ≡ codes "missing " ++ kind_text kind }
{
    Name::text_only(match kind {
        FileKind::Tfm => b"missing tfm",
        FileKind::Vf => b"missing vf",
        FileKind::Pk => b"missing pk",
        FileKind::Gf => b"missing gf",
    })
}

// The name of a file that is too long.
fn too_long_name(kind: FileKind) -> Name
    ensures { name_text result ≡ codes "too long " ++ kind_text kind }
{
    Name::text_only(match kind {
        FileKind::Tfm => b"too long tfm",
        FileKind::Vf => b"too long vf",
        FileKind::Pk => b"too long pk",
        FileKind::Gf => b"too long gf",
    })
}

/// The name of what is wrong with a font.
pub fn font_name(fault: FontFault) -> Name
    ensures { name_text result ≡ font_text fault }
{
    match fault {
        FontFault::Missing(kind) => missing_name(kind),
        FontFault::Tfm(fault) => tfm_name(fault),
        FontFault::Vf(fault) => vf_name(fault),
        FontFault::Pk(fault) => pk_name(fault),
        FontFault::Gf(fault) => gf_name(fault),
        FontFault::Name => Name::text_only(b"name"),
        FontFault::Size => Name::text_only(b"size"),
        FontFault::TooLong(kind) => too_long_name(kind),
    }
}
