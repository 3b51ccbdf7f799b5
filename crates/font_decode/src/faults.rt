//! What can be wrong with a font.
use gf_reader::GfFault;
use pk_packets::PkFault;
use tfm_reader::TfmFault;
use vf_reader::VfFault;

/// A kind of a font's files.
#[derive(Clone, Copy, Debug, PartialEq, Eq)]
pub enum FileKind {
    /// The widths.
    Tfm,
    /// The packets of a virtual font.
    Vf,
    /// The glyphs of a packed font, packed.
    Pk,
    /// The glyphs of a packed font, as METAFONT writes them.
    Gf,
}

/// What is wrong with a font: the first fault, in the order in which its name and its files are
/// judged. First comes its name, then its TFM file. With a VF file, that file and the sizes of its
/// local fonts follow; without one, the resolution, and the PK file or, where there is none, the GF
/// file. Of a file that is looked for, the first fault is that it isn't there, then that it is too
/// long, and then what is wrong with its bytes. Where there is neither a PK nor a GF file, the PK
/// file is missing.
#[derive(Clone, Copy, Debug, PartialEq, Eq)]
pub enum FontFault {
    /// There is no such file.
    Missing(FileKind),
    /// This is wrong with the TFM file.
    Tfm(TfmFault),
    /// This is wrong with the VF file.
    Vf(VfFault),
    /// This is wrong with the PK file.
    Pk(PkFault),
    /// This is wrong with the GF file.
    Gf(GfFault),
    /// Files with this name aren't looked for.
    Name,
    /// The resolution of its glyphs lies outside 1 to 1,000,000 dots to the inch, or the size or
    /// the design size of a local font of its VF file outside 1 to 2^27 - 1 DVI units.
    Size,
    /// The file has more than 8,388,608 bytes.
    TooLong(FileKind),
}
