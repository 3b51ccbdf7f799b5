//! The font files of the sample.
ghost use Rattle.std.specs.Prelude.{◌≡◌, IfOk, OnOk};
ghost use Rattle.std.specs.FinMap.{from_entries, insert};
ghost use Rattle.sample_maker.specs.Sample.{duo_vf, local_of, packed_files, sample_files};
ghost use Rattle.sample_maker.specs.Sample.{other_files as others};

use crate::sample_glyphs::{packed_bar, packed_dot};
use crate::{tfm_bytes, vf_bytes};
use outside::{FileName, FontName, Library};
use std::alloc::{AllocError as NoMemory, Global};
use vf_reader::LocalDef;

// No comment, a design size of ten points, the checksum 0, and 300 dots to the inch; then a packet
// of the character 65, and closing commands.
const DOT_PK: [u8; 32] = [
    0xf7, 0x59, 0x00, 0x00, 0xa0, 0x00, 0x00, 0x00, 0x00, 0x00, 0x00, 0x00, 0x04, 0x26, 0xae, 0x00,
    0x04, 0x26, 0xae, 0xe0, 0x09, 0x41, 0x01, 0x00, 0x00, 0x04, 0x02, 0x02, 0x00, 0x01, 0xf0, 0xf5,
];

const BAR_PK: [u8; 36] = [
    0xf7, 0x59, 0x00, 0x00, 0xa0, 0x00, 0x00, 0x00, 0x00, 0x00, 0x00, 0x00, 0x04, 0x26, 0xae, 0x00,
    0x04, 0x26, 0xae, 0xa8, 0x0b, 0x41, 0x01, 0x80, 0x00, 0x06, 0x03, 0x04, 0x00, 0x03, 0xe2, 0x11,
    0x40, 0xf5, 0xf6, 0xf6,
];

// A font of the virtual font, at its size, with a design size of 128 units in points.
fn local(alloc: Global, number: i32, name: &[u8]) -> Result<LocalDef, NoMemory>
    ensures { IfOk result (λ local. local ≡ local_of number name.now) }
{
    let name = FontName::new(alloc, name)?;
    Ok(LocalDef {
        number,
        area: 0,
        name,
        factor: 0x0010_0000,
        points: 0x00f6_ae7d,
    })
}

// The virtual font, whose character 65 is that of its first font, and after it that of its second.
#[tactic(auto, unfolding(crate::specs::Sample::duo_vf))]
fn virtual_font(alloc: Global) -> Result<Vec<u8>, NoMemory>
    ensures { IfOk result (λ bytes. bytes.items ≡ duo_vf) }
{
    let dot = local(alloc, 0, b"dot")?;
    let bar = local(alloc, 1, b"bar")?;
    let commands = Vec::from_slice(alloc, &[0x41, 0xac, 0x41])?;
    vf_bytes(alloc, &[dot, bar], &[(65, 0x2_8000, commands)])
}

// Adds a file.
fn add(alloc: Global, library: &mut Library, name: &[u8], bytes: Vec<u8>) -> Result<(), NoMemory>
    ensures { OnOk result (library.new ≡ insert library.old name.now bytes.items) }
{
    library.add(FileName::new(alloc, name)?, bytes)
}

// The font files other than PK files.
fn other_files(alloc: Global) -> Result<Library, NoMemory>
    ensures { IfOk result (λ library. library ≡ from_entries others) }
{
    let duo_tfm = tfm_bytes(alloc, &[(65, 0x2_8000)])?;
    let dot_tfm = tfm_bytes(alloc, &[(65, 0x1_0000)])?;
    let bar_tfm = tfm_bytes(alloc, &[(65, 0x1_8000)])?;
    let duo_vf = virtual_font(alloc)?;
    let mut files = Library::new(alloc);
    add(alloc, &mut files, b"duo.vf", duo_vf)?;
    add(alloc, &mut files, b"bar.tfm", bar_tfm)?;
    add(alloc, &mut files, b"dot.tfm", dot_tfm)?;
    add(alloc, &mut files, b"duo.tfm", duo_tfm)?;
    Ok(files)
}

// The files of the sample.
pub(crate) fn library(alloc: Global) -> Result<Library, NoMemory>
    ensures { IfOk result (λ library. library ≡ sample_files) }
{
    let mut files = other_files(alloc)?;
    let dot_pk = Vec::from_slice(alloc, &DOT_PK)?;
    let bar_pk = Vec::from_slice(alloc, &BAR_PK)?;
    add(alloc, &mut files, b"bar.300pk", bar_pk)?;
    add(alloc, &mut files, b"dot.300pk", dot_pk)?;
    Ok(files)
}

// The same files with packed glyphs.
pub(crate) fn packed_library(alloc: Global) -> Result<Library, NoMemory>
    ensures { IfOk result (λ library. library ≡ packed_files) }
{
    let mut files = other_files(alloc)?;
    let dot_pk = packed_dot(alloc)?;
    let bar_pk = packed_bar(alloc)?;
    add(alloc, &mut files, b"bar.300pk", bar_pk)?;
    add(alloc, &mut files, b"dot.300pk", dot_pk)?;
    Ok(files)
}
