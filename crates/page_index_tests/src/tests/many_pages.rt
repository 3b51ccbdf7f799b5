//! The most pages.

use super::{ONE_PAGE, fault_of};
use page_index::DocFault;
use std::alloc::{AllocError as NoMemory, Global};
use std::test::Fail;

// A page's beginning without its pointer.
const BOP: [u8; 41] = [
    0x8b, 0, 0, 0, 0, 0, 0, 0, 0, 0, 0, 0, 0, 0, 0, 0, 0, 0, 0, 0, 0, 0, 0, 0, 0, 0, 0, 0, 0, 0, 0,
    0, 0, 0, 0, 0, 0, 0, 0, 0, 0,
];

// Appends an empty page whose pointer is `back`.
fn push_page(file: &mut Vec<u8>, back: i32) -> Result<(), NoMemory> {
    file.extend_from_slice(&BOP)?;
    file.extend_from_slice(&back.to_be_bytes())?;
    file.push(0x8c)?;
    Ok(())
}

// A document that ends after a million pages.
fn a_million(alloc: Global) -> Result<Vec<u8>, NoMemory> {
    let mut file = Vec::with_capacity(alloc, 46_001_000)?;
    file.extend_from_slice(&ONE_PAGE[..15])?;
    push_page(&mut file, -1)?;
    let mut back: i32 = 15;
    for _ in 1..1_000_000 {
        push_page(&mut file, back)?;
        back = back.wrapping_add(46);
    }
    Ok(file)
}

// At the end of a million pages, and with one page more, which has a wrong pointer too.
#[test]
fn the_millionth_page_is_the_last(rt: HostRuntime) -> Result<(), Fail> {
    let mut file = a_million(rt.alloc())?;
    let ended = fault_of(rt.alloc(), &file)?;
    push_page(&mut file, 7)?;
    assert_eq!(rt;
        (ended, fault_of(rt.alloc(), &file)?),
        (
            Some(DocFault::Truncated { at: 46_000_015 }),
            Some(DocFault::TooManyPages { at: 46_000_015 })
        )
    );
    Ok(())
}
