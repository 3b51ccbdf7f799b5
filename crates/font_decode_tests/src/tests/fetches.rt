//! The names that a fetch asks for, and what it finds.

use super::{Named, UNITS, key, library};
use font_decode::{Files, fetch};
use outside::{FileName, FontSource, LoadStop, MemFonts};
use std::alloc::{AllocError as NoMemory, Global};
use std::str;
use std::test::Fail;

const MANY: [&str; 19] = [
    "dot.tfm",
    "dot.300pk",
    "dot.300gf",
    "near.tfm",
    "near.301pk",
    "near.299pk",
    "low.tfm",
    "low.299pk",
    "low.300gf",
    "duo.tfm",
    "duo.vf",
    "duo.300pk",
    "gen.tfm",
    "gen.300gf",
    "up.tfm",
    "up.301gf",
    "up.299gf",
    "o.tfm",
    "o.299gf",
];

const DOT: Named = (b"dot", 128, 128);

// At 600 dots to the inch.
const TWICE: Named = (b"dot", 256, 128);

// A font, the files that are there, and the number of the load that fails, from 1, or 0. Then what
// a fetch comes to: the names that it asks for, and after a bar the TFM, the VF and the PK file
// that it finds, and a GF file where it finds one. `!` stands at the end where the next load is the
// one that fails.
type Fetch = (Named, &'static [&'static str], u64, &'static str);

static FETCHES: [Fetch; 37] = [
    (
        DOT,
        &MANY,
        4,
        "dot.tfm dot.vf dot.300pk | dot.tfm - dot.300pk !",
    ),
    // The resolution above comes first, the one below last.
    (
        (b"near", 128, 128),
        &MANY,
        5,
        "near.tfm near.vf near.300pk near.301pk | near.tfm - near.301pk !",
    ),
    (
        (b"low", 128, 128),
        &MANY,
        6,
        "low.tfm low.vf low.300pk low.301pk low.299pk | low.tfm - low.299pk !",
    ),
    (
        (b"up", 256, 128),
        &MANY,
        9,
        "up.tfm up.vf up.600pk up.601pk up.599pk up.600gf up.601gf up.599gf | up.tfm - - !",
    ),
    // GF files come after the three PK files, at the same three resolutions.
    (
        (b"gen", 128, 128),
        &MANY,
        7,
        "gen.tfm gen.vf gen.300pk gen.301pk gen.299pk gen.300gf | gen.tfm - - gen.300gf !",
    ),
    (
        (b"up", 128, 128),
        &MANY,
        8,
        "up.tfm up.vf up.300pk up.301pk up.299pk up.300gf up.301gf | up.tfm - - up.301gf !",
    ),
    (
        (b"o", 128, 128),
        &MANY,
        9,
        "o.tfm o.vf o.300pk o.301pk o.299pk o.300gf o.301gf o.299gf | o.tfm - - o.299gf !",
    ),
    (
        (b"dot", 256, 128),
        &["dot.tfm", "dot.600gf", "dot.599pk"],
        0,
        "dot.tfm dot.vf dot.600pk dot.601pk dot.599pk | dot.tfm - dot.599pk",
    ),
    // No file of glyphs is looked for: beside a VF file, without a TFM file, and at 1,171,875 dots
    // to the inch.
    (
        (b"duo", 128, 128),
        &MANY,
        3,
        "duo.tfm duo.vf | duo.tfm duo.vf - !",
    ),
    ((b"none", 128, 128), &MANY, 2, "none.tfm | - - - !"),
    (
        (b"dot", 500_000, 128),
        &MANY,
        3,
        "dot.tfm dot.vf | dot.tfm - - !",
    ),
    // Names of which no file is looked for.
    ((b"", 128, 128), &MANY, 1, "| - - - !"),
    ((b".dot", 128, 128), &MANY, 1, "| - - - !"),
    ((b"../dot", 128, 128), &MANY, 1, "| - - - !"),
    ((b"d\xf6t", 128, 128), &MANY, 1, "| - - - !"),
    ((b"../dot", 128, 128), &["dot.tfm", "dot.vf"], 0, "| - - -"),
    // One file beside the TFM file, or one that isn't this font's.
    (
        DOT,
        &["dot.tfm", "dot.vf"],
        0,
        "dot.tfm dot.vf | dot.tfm dot.vf -",
    ),
    (
        DOT,
        &["dot.tfm", "dot.300pk"],
        0,
        "dot.tfm dot.vf dot.300pk | dot.tfm - dot.300pk",
    ),
    (
        DOT,
        &["dot.tfm", "dot.301pk"],
        0,
        "dot.tfm dot.vf dot.300pk dot.301pk | dot.tfm - dot.301pk",
    ),
    (
        DOT,
        &["dot.tfm", "dot.299pk"],
        0,
        "dot.tfm dot.vf dot.300pk dot.301pk dot.299pk | dot.tfm - dot.299pk",
    ),
    (
        (b"none", 128, 128),
        &["dot.tfm", "none.vf"],
        0,
        "none.tfm | - - -",
    ),
    // The range of resolutions is judged on the font's own alone: 1, 0, 1,000,000 and 1,000,001.
    (
        (b"dot", 1, 300),
        &["dot.tfm", "dot.0pk"],
        0,
        "dot.tfm dot.vf dot.1pk dot.2pk dot.0pk | dot.tfm - dot.0pk",
    ),
    (
        (b"dot", 1, 601),
        &["dot.tfm", "dot.0pk"],
        0,
        "dot.tfm dot.vf | dot.tfm - -",
    ),
    (
        (b"dot", 10_000, 3),
        &["dot.tfm", "dot.1000001pk"],
        0,
        "dot.tfm dot.vf dot.1000000pk dot.1000001pk | dot.tfm - dot.1000001pk",
    ),
    (
        (b"dot", 1_000_001, 300),
        &["dot.tfm", "dot.1000001pk"],
        0,
        "dot.tfm dot.vf | dot.tfm - -",
    ),
    // A failed load ends a fetch.
    (
        DOT,
        &["dot.tfm", "dot.299pk"],
        4,
        "dot.tfm dot.vf dot.300pk dot.301pk | failed",
    ),
    (DOT, &MANY, 2, "dot.tfm dot.vf | failed"),
    (TWICE, &MANY, 1, "dot.tfm | failed"),
    (TWICE, &MANY, 2, "dot.tfm dot.vf | failed"),
    (TWICE, &MANY, 3, "dot.tfm dot.vf dot.600pk | failed"),
    (
        TWICE,
        &MANY,
        4,
        "dot.tfm dot.vf dot.600pk dot.601pk | failed",
    ),
    (
        TWICE,
        &MANY,
        5,
        "dot.tfm dot.vf dot.600pk dot.601pk dot.599pk | failed",
    ),
    (
        TWICE,
        &MANY,
        6,
        "dot.tfm dot.vf dot.600pk dot.601pk dot.599pk dot.600gf | failed",
    ),
    (
        TWICE,
        &MANY,
        7,
        "dot.tfm dot.vf dot.600pk dot.601pk dot.599pk dot.600gf dot.601gf | failed",
    ),
    (
        TWICE,
        &MANY,
        8,
        "dot.tfm dot.vf dot.600pk dot.601pk dot.599pk dot.600gf dot.601gf dot.599gf | failed",
    ),
    (
        DOT,
        &["dot.tfm", "dot.301gf"],
        6,
        "dot.tfm dot.vf dot.300pk dot.301pk dot.299pk dot.300gf | failed",
    ),
    (
        (b"dot", 1, 601),
        &["dot.tfm", "dot.0gf"],
        0,
        "dot.tfm dot.vf | dot.tfm - -",
    ),
];

// Appends the names that a source was asked for, each with a space after it.
fn put_asked(text: &mut Vec<u8>, source: &MemFonts) -> Result<(), Fail> {
    for name in source.asked().ok_or("no names")? {
        text.extend_from_slice(name.bytes())?;
        text.push(b' ')?;
    }
    Ok(())
}

// Appends what was found of each file, with a space before it.
fn put_found(text: &mut Vec<u8>, files: &Files) -> Result<(), NoMemory> {
    for file in [&files.tfm, &files.vf, &files.pk] {
        text.push(b' ')?;
        match file {
            Some(bytes) => text.extend_from_slice(bytes)?,
            None => text.push(b'-')?,
        }
    }
    if let Some(bytes) = &files.gf {
        text.push(b' ')?;
        text.extend_from_slice(bytes)?;
    }
    Ok(())
}

// Appends what a fetch came to.
fn put_end(text: &mut Vec<u8>, fetched: &Result<Files, LoadStop>) -> Result<(), NoMemory> {
    text.push(b'|')?;
    match fetched {
        Ok(files) => put_found(text, files),
        Err(LoadStop::Failed) => text.extend_from_slice(b" failed"),
        Err(LoadStop::NoMemory) => Err(NoMemory),
    }
}

// Appends a mark where the next load fails.
fn put_next(text: &mut Vec<u8>, alloc: Global, source: &mut MemFonts) -> Result<(), NoMemory> {
    match source.load(&FileName::new(alloc, b"dot.tfm")?) {
        Err(LoadStop::Failed) => text.extend_from_slice(b" !"),
        _ => Ok(()),
    }
}

// Appends the names that a fetch asks for, and what it comes to.
fn put_fetch(
    text: &mut Vec<u8>,
    alloc: Global,
    source: &mut MemFonts,
    font: &Named,
) -> Result<(), Fail> {
    let fetched = fetch(alloc, source, &key(alloc, font)?, &UNITS);
    put_asked(text, source)?;
    put_end(text, &fetched)?;
    put_next(text, alloc, source)?;
    Ok(())
}

#[test]
fn names_and_files(rt: HostRuntime) -> Result<(), Fail> {
    let alloc = rt.alloc();
    for (row, (font, files, fails, want)) in FETCHES.iter().enumerate() {
        let mut source = MemFonts::new(library(alloc, files)?, vec![in alloc; *fails]?);
        let mut text = Vec::new(alloc);
        put_fetch(&mut text, alloc, &mut source, font)?;
        assert_eq!(rt; str::from_utf8(&text).ok(), Some(*want), "row {row}");
    }
    Ok(())
}
