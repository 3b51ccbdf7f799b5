//! What is wrong first with changed files of a font.

use super::Named;
use super::files::{DOT_PK, DOT_TFM, DUO_VF, File, NONE, PK, TFM, decoded};
use font_decode::{Decoded, FileKind, FontFault};
use pk_packets::PkFault;
use std::alloc::Global;
use std::test::Fail;
use tfm_reader::TfmFault;
use vf_reader::VfFault;

const DOT: Named = (b"dot", 128, 128);

const DUO: Named = (b"duo", 128, 128);

// At 1,171,875 dots to the inch.
const HUGE: Named = (b"dot", 500_000, 128);

// The largest size.
const LARGEST: Named = (b"duo", 134_217_727, 128);

// A file of one byte that no format begins with.
const ODD: File = (b"?", 1, 0, &[]);

// The most bytes of a file, and one more.
const LONGEST: File = (&[], 8_388_608, 0, &[]);

const TOO_LONG: File = (&[], 8_388_609, 0, &[]);

const SIZE: Option<FontFault> = Some(FontFault::Size);

const NO_TFM: Option<FontFault> = Some(FontFault::Missing(FileKind::Tfm));

const BAD_VF: Option<FontFault> = Some(FontFault::Vf(VfFault::Preamble));

static FAULTS: [(Named, &'static [File; 3], Option<FontFault>); 32] = [
    (DOT, &[TFM, NONE, PK], None),
    // Names and missing files.
    ((b"d/t", 128, 128), &[TFM, NONE, PK], Some(FontFault::Name)),
    (DOT, &[NONE, NONE, PK], NO_TFM),
    (
        DOT,
        &[TFM, NONE, NONE],
        Some(FontFault::Missing(FileKind::Pk)),
    ),
    (DOT, &[TFM, ODD, NONE], BAD_VF),
    // TFM and PK files that are cut, and with a byte changed.
    (
        DOT,
        &[(&DOT_TFM, 55, 0, &[]), NONE, PK],
        Some(FontFault::Tfm(TfmFault::Short)),
    ),
    (
        DOT,
        &[(&DOT_TFM, 56, 32, &[2]), NONE, PK],
        Some(FontFault::Tfm(TfmFault::WidthIndex(65))),
    ),
    (
        DOT,
        &[TFM, NONE, (&DOT_PK, 31, 0, &[])],
        Some(FontFault::Pk(PkFault::Short)),
    ),
    (
        DOT,
        &[TFM, NONE, (&DOT_PK, 32, 31, &[0xf7])],
        Some(FontFault::Pk(PkFault::Undefined(0xf7))),
    ),
    // Sizes without a resolution: 1,171,875 dots to the inch, less than a half, and a half.
    (HUGE, &[TFM, NONE, PK], SIZE),
    ((b"dot", 1, 601), &[TFM, NONE, PK], SIZE),
    ((b"dot", 1, 600), &[TFM, NONE, PK], None),
    // A file as long as may be is refused for what it holds.
    (
        DOT,
        &[LONGEST, NONE, PK],
        Some(FontFault::Tfm(TfmFault::Counts)),
    ),
    (
        DOT,
        &[TFM, NONE, LONGEST],
        Some(FontFault::Pk(PkFault::Preamble)),
    ),
    (DOT, &[TFM, LONGEST, NONE], BAD_VF),
    (
        DOT,
        &[TOO_LONG, NONE, PK],
        Some(FontFault::TooLong(FileKind::Tfm)),
    ),
    (
        DOT,
        &[TFM, TOO_LONG, NONE],
        Some(FontFault::TooLong(FileKind::Vf)),
    ),
    (
        DOT,
        &[TFM, NONE, TOO_LONG],
        Some(FontFault::TooLong(FileKind::Pk)),
    ),
    // The first of several faults.
    (
        (b".dot", 128, 128),
        &[NONE, ODD, ODD],
        Some(FontFault::Name),
    ),
    (HUGE, &[NONE, ODD, ODD], NO_TFM),
    (
        HUGE,
        &[ODD, ODD, ODD],
        Some(FontFault::Tfm(TfmFault::Short)),
    ),
    (HUGE, &[TFM, ODD, ODD], BAD_VF),
    (HUGE, &[TFM, NONE, NONE], SIZE),
    (HUGE, &[TFM, NONE, ODD], SIZE),
    // Local fonts by their factor and their points, both fix_words. 8191/2^20 of 128 units are
    // none; 1 + 1/2^20 of 2^27 - 1 are more than that. 63150/2^20 points are less than half a unit.
    (
        DUO,
        &[
            TFM,
            (&DUO_VF, 60, 17, &[0, 0, 0x20, 0, 0, 0, 0xf6, 0xaf]),
            NONE,
        ],
        None,
    ),
    (
        DUO,
        &[
            TFM,
            (&DUO_VF, 60, 17, &[0, 0, 0x1f, 0xff, 0, 0, 0xf6, 0xaf]),
            NONE,
        ],
        SIZE,
    ),
    (
        DUO,
        &[
            TFM,
            (&DUO_VF, 60, 17, &[0, 0, 0x20, 0, 0, 0, 0xf6, 0xae]),
            NONE,
        ],
        SIZE,
    ),
    (
        LARGEST,
        &[
            TFM,
            (&DUO_VF, 60, 17, &[0, 0x10, 0, 0, 0, 0, 0xf6, 0xaf]),
            NONE,
        ],
        None,
    ),
    (
        LARGEST,
        &[
            TFM,
            (&DUO_VF, 60, 17, &[0, 0x10, 0, 1, 0, 0, 0xf6, 0xaf]),
            NONE,
        ],
        SIZE,
    ),
    // The fault of the file comes before those of sizes, and no PK file is wanted beside it.
    (
        DUO,
        &[
            TFM,
            (&DUO_VF, 60, 17, &[0, 0, 0, 0, 0, 0, 0xf6, 0xae]),
            NONE,
        ],
        Some(FontFault::Vf(VfFault::LocalDef(0))),
    ),
    (
        (b"duo", 500_000, 128),
        &[TFM, (&DUO_VF, 60, 55, &[0x8d]), NONE],
        Some(FontFault::Vf(VfFault::Unbalanced(65))),
    ),
    (
        (b"duo", 500_000, 128),
        &[TFM, (&DUO_VF, 60, 0, &[]), NONE],
        None,
    ),
];

// What is wrong with a font's files first; a bare font has no PK file.
fn fault(alloc: Global, font: &Named, files: &[File; 3]) -> Result<Option<FontFault>, Fail> {
    match decoded(alloc, font, files)? {
        Decoded::Font(_) => Ok(None),
        Decoded::Bare(_) => Ok(Some(FontFault::Missing(FileKind::Pk))),
        Decoded::Fault(fault) => Ok(Some(fault)),
    }
}

#[test]
fn first_faults(rt: HostRuntime) -> Result<(), Fail> {
    for (row, (font, files, want)) in FAULTS.iter().enumerate() {
        assert_eq!(rt; fault(rt.alloc(), font, files)?, *want, "row {row}");
    }
    Ok(())
}
