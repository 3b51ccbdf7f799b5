//! Font files.
use sample_maker::tfm_bytes;
use std::test::Fail;
use tfm_reader::Tfm;

static ONE_CHARACTER: [u8; 56] = [
    0, 14, 0, 2, 0, 65, 0, 65, 0, 2, 0, 1, 0, 1, 0, 1, 0, 0, 0, 0, 0, 0, 0, 0, // counts
    0, 0, 0, 0, 0, 160, 0, 0, // header
    1, 0, 0, 0, // char_info
    0, 0, 0, 0, 0, 1, 0, 0, // widths
    0, 0, 0, 0, 0, 0, 0, 0, 0, 0, 0, 0, // height, depth, italic correction
];

// The code 65 alone, 1/16 of the size wide.
#[test]
fn metrics_of_one_character(rt: HostRuntime) -> Result<(), Fail> {
    let bytes = tfm_bytes(rt.alloc(), &[(65, 65536)])?;
    assert_eq!(rt; bytes.as_slice(), ONE_CHARACTER.as_slice());
    Ok(())
}

// Codes and their widths, where the codes 49, 72 and 105 have one.
static WIDTHS: [(i32, Option<i32>); 6] = [
    (48, None),
    (49, Some(524288)),
    (50, None),
    (72, Some(786432)),
    (105, Some(-262144)),
    (106, None),
];

#[test]
fn metrics_with_gaps_read_again(rt: HostRuntime) -> Result<(), Fail> {
    let bytes = tfm_bytes(rt.alloc(), &[(49, 524288), (72, 786432), (105, -262144)])?;
    let tfm = Tfm::read(rt.alloc(), &bytes)?;
    for (code, width) in WIDTHS.iter() {
        assert_eq!(rt; tfm.width(*code), *width, "of {code}");
    }
    Ok(())
}
