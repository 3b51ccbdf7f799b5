//! The sample: a document of n pages, and the font files that it needs.
ghost use Rattle.std.specs.Prelude.{◌≡◌, ◌≤◌, IfOk, map};
ghost use Rattle.sample_maker.specs.Sample.{font_of, packed_files, sample_document, sample_files, sample_fonts, sample_page, sample_pages};

use crate::document;
use crate::made::Sample;
use crate::sample_files::{library, packed_library};
use outside::{FontKey, FontName};
use pixel_round::Units;
use std::alloc::{AllocError as NoMemory, Global};

const UNITS: Units = Units {
    num: 1270,
    den: 3,
    mag: 1000,
    res: 300,
};

// The size and the design size of each font, in DVI units.
const SIZE: u32 = 128;

// Four characters 65 side by side, and then 40 units down from where they began.
const LINE: [u8; 9] = [0x8d, 0x41, 0x41, 0x41, 0x41, 0x8e, 0x9e, 0x00, 0x28];

// A font at its design size.
fn font(alloc: Global, number: i32, name: &[u8]) -> Result<(i32, FontKey), NoMemory>
    ensures { IfOk result (λ font. font ≡ font_of number name.now) }
{
    let name = FontName::new(alloc, name)?;
    Ok((
        number,
        FontKey {
            area: 0,
            name,
            size: SIZE,
            design: SIZE,
        },
    ))
}

// The three fonts with their numbers.
fn fonts(alloc: Global) -> Result<[(i32, FontKey); 3], NoMemory>
    ensures { IfOk result (λ fonts. fonts ≡ sample_fonts) }
{
    let duo = font(alloc, 0, b"duo")?;
    let dot = font(alloc, 1, b"dot")?;
    let bar = font(alloc, 2, b"bar")?;
    Ok([duo, dot, bar])
}

// The page with a number, from 1.
fn page(alloc: Global, number: u32) -> Result<Vec<u8>, NoMemory>
    ensures { IfOk result (λ page. page.items ≡ sample_page number) }
{
    let mut page = Vec::new(alloc);
    page.push(0xab)?;
    for _ in 0..1 + number % 3 {
        page.extend_from_slice(&LINE)?;
    }
    page.extend_from_slice(&[0xac, 0x41, 0x41, 0x41, 0x41, 0x41])?;
    Ok(page)
}

// The pages with the numbers from 1 to n.
fn pages(alloc: Global, n: u32) -> Result<Vec<Vec<u8>>, NoMemory>
    requires { n ≤ 1000 }
    ensures { IfOk result (λ pages. map (λ page. page.items) pages.items ≡ sample_pages n) }
{
    let mut pages = Vec::new(alloc);
    for i in 0..n {
        pages.push(page(alloc, i + 1)?)?;
    }
    Ok(pages)
}

// The document of n pages.
fn sample_text(alloc: Global, n: u32) -> Result<Vec<u8>, NoMemory>
    requires some { 1 ≤ n }
    requires few { n ≤ 1000 }
    ensures document { IfOk result (λ text. text.items ≡ sample_document n) }
{
    let fonts = fonts(alloc)?;
    let pages = pages(alloc, n)?;
    document(alloc, &UNITS, &fonts, &pages)
}

/// The sample of n pages, from 1 to 1000. Its pages are set in the virtual font `duo`, whose one
/// character is one of `dot` and one of `bar` side by side, and in `dot`: page i, from 1, has
/// 1 + i mod 3 lines of four characters of `duo`, and a line of five of `dot`. The library has the
/// TFM files of the three fonts, the VF file of `duo`, and the PK files of `dot` and `bar` at 300
/// dots to the inch.
///
/// `NoMemory` when out of memory.
pub fn sample(alloc: Global, n: u32) -> Result<Sample, NoMemory>
    requires some { 1 ≤ n }
    requires few { n ≤ 1000 }
    ensures document { IfOk result (λ s. s.document.items ≡ sample_document n) }
    ensures library { IfOk result (λ s. s.library ≡ sample_files) }
{
    Ok(Sample {
        document: sample_text(alloc, n)?,
        library: library(alloc)?,
    })
}

/// The same document, and its font files with each PK file as `pk_packed` writes it: each glyph is
/// packed, and the TFM widths and the escapements are 0. A reader of these files finds the same
/// glyphs.
///
/// `NoMemory` when out of memory.
pub fn packed_sample(alloc: Global, n: u32) -> Result<Sample, NoMemory>
    requires some { 1 ≤ n }
    requires few { n ≤ 1000 }
    ensures document { IfOk result (λ s. s.document.items ≡ sample_document n) }
    ensures library { IfOk result (λ s. s.library ≡ packed_files) }
{
    Ok(Sample {
        document: sample_text(alloc, n)?,
        library: packed_library(alloc)?,
    })
}
