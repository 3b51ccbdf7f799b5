//! Fonts with a GF file, and what is wrong first with their files.

use super::Named;
use super::files::{DOT_GF, DOT_PK, DUO_VF, File, GF, NONE, PK, TFM, decoded_of_four};
use font_decode::{Decoded, FileKind, FontFault};
use gf_reader::GfFault;
use pk_packets::PkFault;
use std::alloc::Global;
use std::test::Fail;
use tfm_reader::TfmFault;

const DOT: Named = (b"dot", 128, 128);

// At 1,171,875 dots to the inch.
const HUGE: Named = (b"dot", 500_000, 128);

// A file of one byte that no format begins with.
const ODD: File = (b"?", 1, 0, &[]);

// The most bytes of a file, and one more.
const LONGEST: File = (&[], 8_388_608, 0, &[]);

const TOO_LONG: File = (&[], 8_388_609, 0, &[]);

const PREAMBLE: Option<FontFault> = Some(FontFault::Gf(GfFault::Preamble));

// A font, its TFM, VF, PK and GF file, and what is wrong with them first.
static FAULTS: [(Named, &'static [File; 4], Option<FontFault>); 15] = [
    (DOT, &[TFM, NONE, NONE, GF], None),
    (DOT, &[TFM, NONE, NONE, ODD], PREAMBLE),
    (DOT, &[TFM, NONE, NONE, LONGEST], PREAMBLE),
    (
        DOT,
        &[TFM, NONE, NONE, TOO_LONG],
        Some(FontFault::TooLong(FileKind::Gf)),
    ),
    // Without the closing command; with a third black dot in two columns; closed in a character.
    (
        DOT,
        &[TFM, NONE, NONE, (&DOT_GF, 14, 0, &[])],
        Some(FontFault::Gf(GfFault::Short)),
    ),
    (
        DOT,
        &[TFM, NONE, NONE, (&DOT_GF, 15, 10, &[3])],
        Some(FontFault::Gf(GfFault::Outside(65))),
    ),
    (
        DOT,
        &[TFM, NONE, NONE, (&DOT_GF, 15, 13, &[0xf8])],
        Some(FontFault::Gf(GfFault::Misplaced(0xf8))),
    ),
    // Beside a PK file, a GF file isn't looked at; nor beside a VF file.
    (DOT, &[TFM, NONE, PK, ODD], None),
    (
        DOT,
        &[TFM, NONE, (&DOT_PK, 31, 0, &[]), GF],
        Some(FontFault::Pk(PkFault::Short)),
    ),
    (
        DOT,
        &[TFM, NONE, TOO_LONG, GF],
        Some(FontFault::TooLong(FileKind::Pk)),
    ),
    (
        (b"duo", 128, 128),
        &[TFM, (&DUO_VF, 60, 0, &[]), NONE, TOO_LONG],
        None,
    ),
    // The first of several faults.
    (HUGE, &[TFM, NONE, NONE, ODD], Some(FontFault::Size)),
    (
        DOT,
        &[ODD, NONE, NONE, ODD],
        Some(FontFault::Tfm(TfmFault::Short)),
    ),
    (
        DOT,
        &[NONE, NONE, NONE, GF],
        Some(FontFault::Missing(FileKind::Tfm)),
    ),
    // Without both, it is the PK file that is missing.
    (
        DOT,
        &[TFM, NONE, NONE, NONE],
        Some(FontFault::Missing(FileKind::Pk)),
    ),
];

// What is wrong with a font's files first; a bare font has no PK file.
fn fault(alloc: Global, font: &Named, files: &[File; 4]) -> Result<Option<FontFault>, Fail> {
    match decoded_of_four(alloc, font, files)? {
        Decoded::Font(_) => Ok(None),
        Decoded::Bare(_) => Ok(Some(FontFault::Missing(FileKind::Pk))),
        Decoded::Fault(fault) => Ok(Some(fault)),
    }
}

#[test]
fn first_faults_with_gf_files(rt: HostRuntime) -> Result<(), Fail> {
    for (row, (font, files, want)) in FAULTS.iter().enumerate() {
        assert_eq!(rt; fault(rt.alloc(), font, files)?, *want, "row {row}");
    }
    Ok(())
}
