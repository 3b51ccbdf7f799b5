//! DVI files of given units, fonts and pages (Knuth, DVItype, "Device-independent file format").
ghost use Rattle.std.specs.Prelude.{◌≡◌, ℕ, ℤ, ◌+◌, ◌%◌, ◌^◌, ◌≤◌, ◌<◌, ◌++◌, ◌∷◌, [], All, IfOk, IsTrue, OnOk, length, map, negsuc, pos, replicate};
ghost use Rattle.std.specs.List.{AllByRecursion, flat_map};
ghost use Rattle.big_endian.specs.Numbers.{IsSigned};
ghost use Rattle.dvi_commands.specs.Reading.{commands_of};
ghost use Rattle.dvi_commands.specs.ShortestSpelling.{shortest_spelling};
ghost use Rattle.dvi_commands.specs.Spelling.{PostPost};
ghost use Rattle.page_index.specs.Document.{IsDocument, Reading, end_of, last_bop, text_of};
ghost use Rattle.page_index.specs.Judged.{is_scale_right};
ghost use Rattle.page_index.specs.Limits.{MAX_DOCUMENT_LENGTH, MAX_PAGES};
ghost use Rattle.sample_maker.specs.DviFile.{AreSigned, DefineRightly, GivesBack, IsFontSpelled, IsPageText, IsWritable, are_apart, beginning, definition, document_reading, document_text, filler_after, fonts_text, key_given, last_page, page_bytes, pages_reading, pages_text, postamble, preamble, with_fonts, with_pages};

use dvi_commands::{Command, FontDef, write_command};
use outside::FontKey;
use pixel_round::Units;
use std::alloc::{AllocError as NoMemory, Global};

// Appends the definition of a font, with the checksum 0.
fn append_font(alloc: Global, font: &(i32, FontKey), out: &mut Vec<u8>) -> Result<(), NoMemory>
    requires { IsWritable font.now }
    ensures appended { OnOk result
        (out.new.items ≡ out.old.items ++ shortest_spelling (definition font.now)) }
    ensures spelled { IsFontSpelled font.now }
{
    let key = &font.1;
    write_command(
        alloc,
        &Command::Define(FontDef {
            number: font.0,
            check: 0,
            size: key.size as i32,
            design: key.design as i32,
            area: key.area,
            name: key.name.bytes(),
        }),
        out,
    )
}

// Appends the definitions of the fonts.
fn append_fonts(alloc: Global, fonts: &[(i32, FontKey)], out: &mut Vec<u8>) -> Result<(), NoMemory>
    requires { AllByRecursion IsWritable fonts.now }
    ensures appended { OnOk result (out.new.items ≡ out.old.items ++ fonts_text fonts.now) }
    ensures spelled { OnOk result (All IsFontSpelled fonts.now) }
{
    for i in 0..fonts.len() {
        append_font(alloc, &fonts[i], out)?;
    }
    Ok(())
}

// Appends a page with its number and its pointer.
fn append_page(
    alloc: Global,
    number: usize,
    back: i32,
    body: &[u8],
    out: &mut Vec<u8>,
) -> Result<(), NoMemory>
    requires { number < 2 ^ 31 }
    ensures { OnOk result (out.new.items ≡ out.old.items ++ page_bytes number back body.now) }
{
    let counts = [number as i32, 0, 0, 0, 0, 0, 0, 0, 0, 0];
    write_command(alloc, &Command::Bop { counts, back }, out)?;
    out.extend_from_slice(body)?;
    write_command(alloc, &Command::Eop, out)
}

// Appends the pages, and gives the position of the last one, or -1.
fn append_pages(alloc: Global, pages: &[Vec<u8>], out: &mut Vec<u8>) -> Result<i32, NoMemory>
    requires few { length pages.now ≤ MAX_PAGES }
    requires fits { length out.old.items
        + length (pages_text (length out.old.items) 1 (negsuc 0)
        (map (λ page. page.items) pages.now)) < 2 ^ 31 }
    ensures pages { OnOk result (out.new.items ≡ out.old.items
        ++ pages_text (length out.old.items) 1 (negsuc 0) (map (λ page. page.items) pages.now)) }
    ensures last { IfOk result (λ back. back
        ≡ last_page (length out.old.items) 1 (negsuc 0) (map (λ page. page.items) pages.now)) }
{
    let mut back = -1;
    for i in 0..pages.len() {
        let at = out.len() as i32;
        append_page(alloc, i + 1, back, &pages[i], out)?;
        back = at;
    }
    Ok(back)
}

// Appends bytes 223, at least four, up to a multiple of four.
fn append_filler(out: &mut Vec<u8>) -> Result<(), NoMemory>
    ensures { OnOk result (out.new.items
        ≡ out.old.items ++ replicate (filler_after (length out.old.items)) 223) }
{
    let count = 4 + (4 - out.len() % 4) % 4;
    for _ in 0..count {
        out.push(223)?;
    }
    Ok(())
}

// Appends the preamble.
fn append_preamble(alloc: Global, units: &Units, out: &mut Vec<u8>) -> Result<(), NoMemory>
    requires { AreSigned units.now }
    ensures { OnOk result
        (out.new.items ≡ out.old.items ++ shortest_spelling (preamble units.now)) }
{
    write_command(
        alloc,
        &Command::Pre {
            id: 2,
            num: units.num as i32,
            den: units.den as i32,
            mag: units.mag as i32,
            text: &[],
        },
        out,
    )
}

// Appends the postamble of n pages, with the pointer to the last one.
fn append_post(
    alloc: Global,
    units: &Units,
    back: i32,
    count: usize,
    out: &mut Vec<u8>,
) -> Result<(), NoMemory>
    requires { AreSigned units.now }
    ensures { OnOk result
        (out.new.items ≡ out.old.items ++ shortest_spelling (postamble units.now back count)) }
{
    write_command(
        alloc,
        &Command::Post {
            back,
            num: units.num as i32,
            den: units.den as i32,
            mag: units.mag as i32,
            tallest: 0,
            widest: 0,
            deepest: 0,
            pages: (count % 65536) as u16,
        },
        out,
    )
}

// Appends the pointer to the postamble.
fn append_post_post(alloc: Global, post: usize, out: &mut Vec<u8>) -> Result<(), NoMemory>
    requires { post < 2 ^ 31 }
    ensures { OnOk result
        (out.new.items ≡ out.old.items ++ shortest_spelling (PostPost (pos post) 2)) }
{
    let post = post as i32;
    write_command(alloc, &Command::PostPost { post, id: 2 }, out)
}

/// A DVI file of these fonts and pages: a preamble with an empty text, the definitions of the
/// fonts, the pages, numbered from 1 in the first of their ten counts, the postamble, the
/// definitions again, and bytes 223 up to a multiple of four. All commands but those of the pages
/// have their shortest spelling; checksums and the greatest sizes are 0. The resolution is not in
/// it.
///
/// A page's bytes are whole commands that may stand on it, without its beginning and its end. The
/// file has at most 2^31 - 1 bytes, and 1,000,000 pages.
///
/// It is a document at each resolution at which num * res * mag / (254000000 * den) is at most 512,
/// where the definitions on its pages have right sizes and agree with the fonts and with one
/// another, and it is not longer than a document may be.
///
/// `NoMemory` when out of memory. Knuth, DVItype, "Device-independent file format".
pub fn document(
    alloc: Global,
    units: &Units,
    fonts: &[(i32, FontKey)],
    pages: &[Vec<u8>],
) -> Result<Vec<u8>, NoMemory>
    requires units { AreSigned units.now }
    requires fonts { AllByRecursion IsWritable fonts.now }
    requires apart { IsTrue (are_apart fonts.now) }
    requires few { length pages.now ≤ MAX_PAGES }
    requires pages { AllByRecursion IsPageText (map (λ page. page.items) pages.now) }
    requires fits { length
        (document_text units.now fonts.now (map (λ page. page.items) pages.now)) < 2 ^ 31 }
    ensures bytes { IfOk result (λ bytes. bytes.items
        ≡ document_text units.now fonts.now (map (λ page. page.items) pages.now)) }
    ensures read_again { IfOk result (λ bytes. (res : ℕ) (reading : Reading)
        → IsDocument res bytes.items reading
        → GivesBack units.now fonts.now (map (λ page. page.items) pages.now) res reading) }
    ensures is_document { IfOk result (λ bytes. (res : ℕ)
        → IsTrue (is_scale_right res (pos units.now.num) (pos units.now.den) (pos units.now.mag))
        → DefineRightly (key_given fonts.now)
        (flat_map commands_of (map (λ page. page.items) pages.now))
        → length bytes.items ≤ MAX_DOCUMENT_LENGTH
        → IsDocument res bytes.items
        (document_reading units.now fonts.now (map (λ page. page.items) pages.now))) }
{
    let mut out = Vec::new(alloc);
    append_preamble(alloc, units, &mut out)?;
    append_fonts(alloc, fonts, &mut out)?;
    let back = append_pages(alloc, pages, &mut out)?;
    let post = out.len();
    append_post(alloc, units, back, pages.len(), &mut out)?;
    append_fonts(alloc, fonts, &mut out)?;
    append_post_post(alloc, post, &mut out)?;
    append_filler(&mut out)?;
    Ok(out)
}
