//! Files that are cut at each byte.

use super::joined;
use pk_packets::{PkFault, PkFont, PkStop};
use std::alloc::Global;
use std::test::Fail;
use tfm_reader::{Tfm, TfmFault, TfmStop};
use vf_reader::{VfFault, VfFont, VfStop};

// How a file is read.
#[derive(Clone, Copy)]
enum Kind {
    Tfm,
    Pk,
    Vf,
}

// The beginnings of files: the counts and the header of a font of the code 65 alone with its
// char_info; a preamble for 300 dots to the inch; and one without a comment.
const TFM: [u8; 36] = [
    0, 14, 0, 2, 0, 65, 0, 65, 0, 2, 0, 1, 0, 1, 0, 1, 0, 0, 0, 0, 0, 0, 0, 0, //
    0, 0, 0, 0, 0, 0xa0, 0, 0, 1, 0, 0, 0,
];

const PK: [u8; 19] = [
    0xf7, 0x59, 0, 0, 0xa0, 0, 0, 0, 0, 0, 0, 0, 4, 0x26, 0xae, 0, 4, 0x26, 0xae,
];

const VF: [u8; 11] = [0xf7, 0xca, 0, 0, 0, 0, 0, 0, 0xa0, 0, 0];

// A height, a depth and an italic correction, each 0.
const ZEROS: [u8; 12] = [0; 12];

// How a file is read, its parts, and the number of bytes from which on it isn't too short: all that
// its counts announce, or its first closing command with all before it.
static FILES: [(Kind, [&'static [u8]; 3], usize); 14] = [
    // dot.tfm and corner.tfm and loop.tfm, bar.tfm, duo.tfm, thin.tfm, twin.tfm and box.tfm
    (Kind::Tfm, [&TFM, &[0, 0, 0, 0, 0, 1, 0, 0], &ZEROS], 56),
    (Kind::Tfm, [&TFM, &[0, 0, 0, 0, 0, 1, 0x80, 0], &ZEROS], 56),
    (Kind::Tfm, [&TFM, &[0, 0, 0, 0, 0, 2, 0x80, 0], &ZEROS], 56),
    (Kind::Tfm, [&TFM, &[0, 0, 0, 0, 0, 0, 0x60, 0], &ZEROS], 56),
    (Kind::Tfm, [&TFM, &[0, 0, 0, 0, 0, 0, 0xc0, 0], &ZEROS], 56),
    (
        Kind::Tfm,
        [
            &[
                0, 16, 0, 2, 0, 65, 0, 66, 0, 3, 0, 1, 0, 1, 0, 1, 0, 0, 0, 0, 0, 0, 0, 0, //
                0, 0, 0, 0, 0, 0xa0, 0, 0, 1, 0, 0, 0, 2, 0, 0, 0,
            ],
            &[0, 0, 0, 0, 0, 1, 0, 0, 0, 1, 0, 0],
            &ZEROS,
        ],
        64,
    ),
    // dot.300pk, bar.300pk, thin.300pk and corner.300pk
    (
        Kind::Pk,
        [&PK, &[0xe0, 9, 65, 1, 0, 0, 4, 2, 2, 0, 1, 0xf0], &[0xf5]],
        32,
    ),
    (
        Kind::Pk,
        [
            &PK,
            &[0xa8, 11, 65, 1, 0x80, 0, 6, 3, 4, 0, 3, 0xe2, 0x11, 0x40],
            &[0xf5, 0xf6, 0xf6],
        ],
        34,
    ),
    (
        Kind::Pk,
        [
            &PK,
            &[0xe0, 9, 65, 0, 0x60, 0, 2, 1, 1, 0, 0, 0x80],
            &[0xf5],
        ],
        32,
    ),
    (
        Kind::Pk,
        [
            &PK,
            &[0xe0, 10, 65, 1, 0, 0, 4, 4, 4, 2, 2, 0xff, 0xff],
            &[0xf5, 0xf6, 0xf6, 0xf6],
        ],
        33,
    ),
    // duo.vf, twin.vf, loop.vf and box.vf
    (
        Kind::Vf,
        [
            &VF,
            &[
                0xf3, 0, 0, 0, 0, 0, 0, 0x10, 0, 0, 0, 0xf6, 0xae, 0x7d, 0, 3, 0x64, 0x6f, 0x74, //
                0xf3, 1, 0, 0, 0, 0, 0, 0x10, 0, 0, 0, 0xf6, 0xae, 0x7d, 0, 3, 0x62, 0x61, 0x72, //
                3, 65, 2, 0x80, 0, 65, 172, 65,
            ],
            &[0xf8, 0xf8, 0xf8],
        ],
        58,
    ),
    (
        Kind::Vf,
        [
            &VF,
            &[
                0xf3, 0, 0, 0, 0, 0, 0, 0x10, 0, 0, 0, 0xf6, 0xae, 0x7d, 0, 4, 0x74, 0x68, 0x69,
                0x6e, 2, 65, 0, 0xc0, 0, 65, 65,
            ],
            &[0xf8, 0xf8],
        ],
        39,
    ),
    (
        Kind::Vf,
        [
            &VF,
            &[
                0xf3, 0, 0, 0, 0, 0, 0, 0x10, 0, 0, 0, 0xf6, 0xae, 0x7d, 0, 4, 0x6c, 0x6f, 0x6f,
                0x70, 1, 65, 1, 0, 0, 65,
            ],
            &[0xf8, 0xf8, 0xf8],
        ],
        38,
    ),
    (
        Kind::Vf,
        [
            &VF,
            &[
                1, 65, 1, 0, 0, 65, 9, 66, 1, 0, 0, 132, 0, 1, 0, 0, 0, 1, 0, 0,
            ],
            &[0xf8],
        ],
        32,
    ),
];

// Whether a file is read, and not too short. Another fault fails the test.
fn is_read(alloc: Global, kind: Kind, bytes: &[u8]) -> Result<bool, Fail> {
    match kind {
        Kind::Tfm => match Tfm::read(alloc, bytes) {
            Ok(_) => Ok(true),
            Err(TfmStop::Fault(TfmFault::Short)) => Ok(false),
            Err(stop) => Err(stop.into()),
        },
        Kind::Pk => match PkFont::read(alloc, bytes) {
            Ok(_) => Ok(true),
            Err(PkStop::Fault(PkFault::Short)) => Ok(false),
            Err(stop) => Err(stop.into()),
        },
        Kind::Vf => match VfFont::read(alloc, bytes) {
            Ok(_) => Ok(true),
            Err(VfStop::Fault(VfFault::Short)) => Ok(false),
            Err(stop) => Err(stop.into()),
        },
    }
}

// The first cut that is too short and has enough bytes, or isn't and hasn't.
fn wrong_cut(
    alloc: Global,
    kind: Kind,
    bytes: &[u8],
    enough: usize,
) -> Result<Option<usize>, Fail> {
    for length in 0..bytes.len() {
        if is_read(alloc, kind, &bytes[..length])? != (enough <= length) {
            return Ok(Some(length));
        }
    }
    Ok(None)
}

#[test]
fn files_that_are_cut_are_too_short(rt: HostRuntime) -> Result<(), Fail> {
    for (row, (kind, parts, enough)) in FILES.iter().enumerate() {
        let bytes = joined(rt.alloc(), parts)?;
        assert_eq!(rt;
            wrong_cut(rt.alloc(), *kind, &bytes, *enough)?,
            None,
            "row {row}"
        );
        assert!(rt; is_read(rt.alloc(), *kind, &bytes)?, "row {row}");
    }
    Ok(())
}
