//! Names and keys, which are compared by value.

use outside::{FileName, FontKey, FontName, laws};
use std::alloc::Global;

// The key of a font of 10 points without an area.
fn ten_points(alloc: Global, name: &[u8]) -> Option<FontKey> {
    Some(FontKey {
        area: 0,
        name: FontName::new(alloc, name).ok()?,
        size: 655360,
        design: 655360,
    })
}

// Whether a key is equal to its clone and to another one, and whether it is below that.
fn keys_told(alloc: Global, name: &[u8], other: &[u8]) -> Option<[bool; 3]> {
    let key = ten_points(alloc, name)?;
    let other = ten_points(alloc, other)?;
    let again = laws::key_again(&key).ok()?;
    Some([
        laws::are_equal_keys(&key, &again),
        laws::are_equal_keys(&key, &other),
        key < other,
    ])
}

// Whether the name of a font is equal to its clone, and whether that has its bytes.
fn font_told(alloc: Global, name: &[u8]) -> Option<[bool; 2]> {
    let font = FontName::new(alloc, name).ok()?;
    let again = laws::font_again(&font).ok()?;
    Some([laws::are_equal_fonts(&font, &again), again.bytes() == name])
}

// The same of the name of a file.
fn file_told(alloc: Global, name: &[u8]) -> Option<[bool; 2]> {
    let file = FileName::new(alloc, name).ok()?;
    let again = laws::file_again(&file).ok()?;
    Some([laws::are_equal_files(&file, &again), again.bytes() == name])
}

#[test]
fn names_and_keys_are_compared_by_value(rt: HostRuntime) {
    let alloc = rt.alloc();
    let told = (
        keys_told(alloc, b"cmr10", b"cmr9"),
        font_told(alloc, b"cmr10"),
        file_told(alloc, b"cmr10.tfm"),
    );
    let equal = Some([true, true]);
    assert_eq!(rt; told, (Some([true, false, true]), equal, equal));
}
