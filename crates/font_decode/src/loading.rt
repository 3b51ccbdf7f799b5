//! Which of a font's files are there.
ghost use Rattle.std.specs.Prelude.{◌≡◌, ◌<◌, ◌≤◌, ℕ, List, [], ◌∷◌, length, Option, Some, None, slice_index_or, IsTrue, IfOk, OnErr, OnOk, IfSome, IsErrOf, IsSome, IsNone, IsFalse, is_none, is_some, if◌then◌else◌};
ghost use Rattle.std.specs.Option.{option_map};
ghost use Rattle.std.specs.FinMap.{get};
ghost use Rattle.outside.specs.Counts.{HasCause};
ghost use Rattle.outside.specs.FontKeys.{IsFontKey};
ghost use Rattle.pixel_round.specs.Preamble.{AreUnits};
ghost use Rattle.font_decode.specs.Names.{is_valid_name, dpi, is_resolution, name_at, three_names};
ghost use Rattle.font_decode.specs.Files.{bytes_of, first_there, up_to_there, pk_choices, gf_choices, glyph_choices, IsFound, looked_for, IsInOrder, fewest_loads, most_loads, fewest_glyphs, most_glyphs};
ghost use Rattle.outside.specs.Library.{Asks};
ghost use Rattle.font_decode.specs.Asked.{AskedFirst, AskedUntil, choices};
ghost use Rattle.font_decode.specs.Loads.{RoseBy, RoseUpTo, RoseWithin, MAX_LOADS};

use crate::files::Files;
use crate::names::{dpi, file_name, is_resolution, is_valid_name};
use outside::{FontKey, FontSource, LoadStop};
use pixel_round::Units;
use std::alloc::Global;

// The places of the first PK file and of the first GF file among the names of a font's files.
const PK: usize = 2;

const GF: usize = 5;

// The files of a font's glyphs that were found: one of them at most.
#[derive(Drop)]
struct GlyphFiles {
    pk: Option<Vec<u8>>,
    gf: Option<Vec<u8>>,
}

// Loads one of a font's files.
fn load_file<F: FontSource>(
    alloc: Global,
    source: &mut F,
    key: &FontKey,
    units: &Units,
    which: usize,
) -> Result<Option<Vec<u8>>, LoadStop>
    requires units { AreUnits units.now }
    requires key { IsFontKey key.now }
    requires valid { IsTrue (is_valid_name key.now) }
    requires which { which < 8 }
    requires resolution { 2 ≤ which → IsTrue (is_resolution (dpi units.now key.now)) }
    ensures file { IfOk result (λ found. IfSome (F.library source.old) (λ l.
        option_map (λ v. v.items) found ≡ get l (name_at units.now key.now which))) }
    ensures library { F.library source.new ≡ F.library source.old }
    ensures cause { HasCause (F.faults source.old) (F.faults source.new)
        (IsErrOf result LoadStop.Failed) }
    ensures counted { OnOk result (RoseBy 1 (F.loads source.old) (F.loads source.new)) }
    ensures most { RoseUpTo 1 (F.loads source.old) (F.loads source.new) }
    ensures asked { OnOk result (Asks (F.asked source.old) (F.asked source.new)
        (name_at units.now key.now which ∷ [])) }
    ensures stopped { OnErr result (AskedUntil (F.asked source.old) (F.asked source.new)
        (name_at units.now key.now which ∷ [])) }
{
    let name = file_name(alloc, key, units, which)?;
    source.load(&name)
}

// Loads the first file that is there of three that follow one another.
fn load_nearest<F: FontSource>(
    alloc: Global,
    source: &mut F,
    key: &FontKey,
    units: &Units,
    first: usize,
) -> Result<Option<Vec<u8>>, LoadStop>
    requires units { AreUnits units.now }
    requires key { IsFontKey key.now }
    requires valid { IsTrue (is_valid_name key.now) }
    requires resolution { IsTrue (is_resolution (dpi units.now key.now)) }
    requires glyphs { 2 ≤ first }
    requires which { first ≤ 5 }
    ensures file { IfOk result (λ found. IfSome (F.library source.old) (λ l.
        option_map (λ v. v.items) found ≡ first_there l (three_names units.now key.now first))) }
    ensures library { F.library source.new ≡ F.library source.old }
    ensures cause { HasCause (F.faults source.old) (F.faults source.new)
        (IsErrOf result LoadStop.Failed) }
    ensures counted { OnOk result (IfSome (F.library source.old) (λ l.
        RoseBy (length (up_to_there l (three_names units.now key.now first))) (F.loads source.old)
        (F.loads source.new))) }
    ensures looked { IfOk result (λ found.
        RoseWithin (if is_some found then 1 else 3) 3 (F.loads source.old) (F.loads source.new)) }
    ensures no_more { IfSome (F.library source.old) (λ l.
        RoseUpTo (length (up_to_there l (three_names units.now key.now first))) (F.loads source.old)
        (F.loads source.new)) }
    ensures asked { IfOk result (λ found. AskedFirst (if is_some found then 1 else 3) 3
        (F.asked source.old) (F.asked source.new) (three_names units.now key.now first)) }
    ensures stopped { OnErr result (AskedUntil (F.asked source.old) (F.asked source.new)
        (three_names units.now key.now first)) }
    ensures named { OnOk result (IfSome (F.library source.old) (λ l.
        Asks (F.asked source.old) (F.asked source.new)
        (up_to_there l (three_names units.now key.now first)))) }
    ensures named_until { OnErr result (IfSome (F.library source.old) (λ l.
        AskedUntil (F.asked source.old) (F.asked source.new)
        (up_to_there l (three_names units.now key.now first)))) }
    ensures most { RoseUpTo 3 (F.loads source.old) (F.loads source.new) }
{
    let exact = load_file(alloc, source, key, units, first)?;
    if exact.is_some() {
        return Ok(exact);
    }
    let above = load_file(alloc, source, key, units, first + 1)?;
    if above.is_some() {
        return Ok(above);
    }
    load_file(alloc, source, key, units, first + 2)
}

// Loads the first PK file that is there or, where none is, the first GF file, if any may be.
fn load_glyphs<F: FontSource>(
    alloc: Global,
    source: &mut F,
    key: &FontKey,
    units: &Units,
) -> Result<GlyphFiles, LoadStop>
    requires units { AreUnits units.now }
    requires key { IsFontKey key.now }
    requires valid { IsTrue (is_valid_name key.now) }
    ensures pk { IfOk result (λ found. IfSome (F.library source.old) (λ l.
        option_map (λ v. v.items) found.pk ≡ first_there l (pk_choices units.now key.now))) }
    ensures gf { IfOk result (λ found. IfSome (F.library source.old) (λ l.
        option_map (λ v. v.items) found.gf ≡ (if is_none (option_map (λ v. v.items) found.pk)
        then first_there l (gf_choices units.now key.now) else None))) }
    ensures in_range { IfOk result (λ found.
        (IsSome found.pk → IsTrue (is_resolution (dpi units.now key.now)))
        × (IsSome found.gf → IsNone found.pk × IsTrue (is_resolution (dpi units.now key.now)))) }
    ensures library { F.library source.new ≡ F.library source.old }
    ensures cause { HasCause (F.faults source.old) (F.faults source.new)
        (IsErrOf result LoadStop.Failed) }
    ensures counted { OnOk result (IfSome (F.library source.old) (λ l.
        RoseBy (length (up_to_there l (glyph_choices units.now key.now))) (F.loads source.old)
        (F.loads source.new))) }
    ensures looked { IfOk result (λ found.
        RoseWithin (fewest_glyphs units.now key.now (is_some found.pk) (is_some found.gf))
        (most_glyphs units.now key.now (is_some found.pk)) (F.loads source.old)
        (F.loads source.new)) }
    ensures no_more { IfSome (F.library source.old) (λ l.
        RoseUpTo (length (up_to_there l (glyph_choices units.now key.now))) (F.loads source.old)
        (F.loads source.new)) }
    ensures asked { IfOk result (λ found.
        AskedFirst (fewest_glyphs units.now key.now (is_some found.pk) (is_some found.gf))
        (most_glyphs units.now key.now (is_some found.pk)) (F.asked source.old)
        (F.asked source.new) (glyph_choices units.now key.now)) }
    ensures stopped { OnErr result (AskedUntil (F.asked source.old) (F.asked source.new)
        (glyph_choices units.now key.now)) }
    ensures named { OnOk result (IfSome (F.library source.old) (λ l.
        Asks (F.asked source.old) (F.asked source.new)
        (up_to_there l (glyph_choices units.now key.now)))) }
    ensures named_until { OnErr result (IfSome (F.library source.old) (λ l.
        AskedUntil (F.asked source.old) (F.asked source.new)
        (up_to_there l (glyph_choices units.now key.now)))) }
    ensures most { RoseUpTo 6 (F.loads source.old) (F.loads source.new) }
{
    if !is_resolution(dpi(units, key)) {
        return Ok(GlyphFiles { pk: None, gf: None });
    }
    let pk = load_nearest(alloc, source, key, units, PK)?;
    if pk.is_some() {
        return Ok(GlyphFiles { pk, gf: None });
    }
    let gf = load_nearest(alloc, source, key, units, GF)?;
    Ok(GlyphFiles { pk, gf })
}

/// Loads the files of a font, in this order: `name.tfm`, then `name.vf`, then, where there is no VF
/// file, PK files at the font's resolution, at one above and at one below, and then GF files at
/// these three, up to the first that is there. What a file holds doesn't matter.
///
/// Nothing is loaded for a name that isn't valid, nothing after a TFM file that isn't there, and
/// neither PK nor GF files where the resolution lies outside 1 to 1,000,000 dots to the inch.
///
/// `Failed` is answered only where the source failed in this call, and `NoMemory` where memory ran
/// out.
pub fn fetch<F: FontSource>(
    alloc: Global,
    source: &mut F,
    key: &FontKey,
    units: &Units,
) -> Result<Files, LoadStop>
    requires units { AreUnits units.now }
    requires key { IsFontKey key.now }

    // Where the library is known: which files these are, and how many were looked for.
    ensures files { IfOk result (λ files. IfSome (F.library source.old) (λ l.
        IsFound l units.now key.now (bytes_of files))) }
    ensures loads { OnOk result (IfSome (F.library source.old) (λ l.
        RoseBy (length (looked_for l units.now key.now)) (F.loads source.old)
        (F.loads source.new))) }
    ensures no_more { IfSome (F.library source.old) (λ l.
        RoseUpTo (length (looked_for l units.now key.now)) (F.loads source.old)
        (F.loads source.new)) }

    // And, where the names asked for are known too: they grew by exactly these, up to the stop.
    ensures named { OnOk result (IfSome (F.library source.old) (λ l.
        Asks (F.asked source.old) (F.asked source.new) (looked_for l units.now key.now))) }
    ensures named_until { OnErr result (IfSome (F.library source.old) (λ l.
        AskedUntil (F.asked source.old) (F.asked source.new) (looked_for l units.now key.now))) }

    // Whatever the source.
    ensures order { IfOk result (λ files. IsInOrder units.now key.now (bytes_of files)) }
    ensures looked { IfOk result (λ files. let f = bytes_of files in
        RoseWithin (fewest_loads units.now key.now f) (most_loads units.now key.now f)
        (F.loads source.old) (F.loads source.new)) }
    // The names asked for, where they are known: those of the format in their order, as many as the
    // files found say, and up to the stop.
    ensures asked { IfOk result (λ files. let f = bytes_of files in
        AskedFirst (fewest_loads units.now key.now f) (most_loads units.now key.now f)
        (F.asked source.old) (F.asked source.new) (choices units.now key.now)) }
    ensures stopped { OnErr result (AskedUntil (F.asked source.old) (F.asked source.new)
        (choices units.now key.now)) }
    ensures invalid { IsFalse (is_valid_name key.now) → F.loads source.new ≡ F.loads source.old }
    ensures most { RoseUpTo MAX_LOADS (F.loads source.old) (F.loads source.new) }
    ensures library { F.library source.new ≡ F.library source.old }
    ensures cause { HasCause (F.faults source.old) (F.faults source.new)
        (IsErrOf result LoadStop.Failed) }
{
    if !is_valid_name(key) {
        return Ok(Files {
            tfm: None,
            vf: None,
            pk: None,
            gf: None,
        });
    }
    let tfm = load_file(alloc, source, key, units, 0)?;
    if tfm.is_none() {
        return Ok(Files {
            tfm: None,
            vf: None,
            pk: None,
            gf: None,
        });
    }
    let vf = load_file(alloc, source, key, units, 1)?;
    if vf.is_some() {
        return Ok(Files {
            tfm,
            vf,
            pk: None,
            gf: None,
        });
    }
    let glyphs = load_glyphs(alloc, source, key, units)?;
    Ok(Files {
        tfm,
        vf,
        pk: glyphs.pk,
        gf: glyphs.gf,
    })
}
