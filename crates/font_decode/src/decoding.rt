//! From files to fonts.
ghost use Rattle.std.specs.Prelude.{◌≡◌, ◌≤◌, List, ℕ, IfOk};
ghost use Rattle.outside.specs.FontKeys.{IsFontKey};
ghost use Rattle.pixel_round.specs.Preamble.{AreUnits};
ghost use Rattle.font_decode.specs.Files.{bytes_of};
ghost use Rattle.font_decode.specs.Decoding.{is_too_long, DecodesBare, DecodesShortPk, DecodesShortGf, DecodesGlyphs, DecodesPacked, DecodesItems, DecodesShortVf, DecodesSound, DecodesTfm, IsDecodingOf};
ghost use Rattle.font_decode.specs.Reading.{IsTfmOf, IsVfRead};
ghost use Rattle.vf_reader.specs.Fonts.{HasPacketsOf};
ghost use Rattle.vf_reader.specs.Weights.{packets_weight};

use crate::locals::local_keys;
use crate::names::{dpi, is_resolution, is_valid_name};
use crate::shapes::Shapes;
use crate::widths::scaled_widths;
use crate::{Decoded, FileKind, Files, Font, FontFault};
use gf_reader::{GfFont, GfStop};
use outside::FontKey;
use pixel_round::Units;
use pk_packets::{PkFont, PkStop};
use std::alloc::{AllocError as NoMemory, Global};
use tfm_reader::{Tfm, TfmStop};
use vf_reader::{VfFont, VfStop};

// The most bytes that a file may have.
const MAX_FILE_LENGTH: usize = 8_388_608;

// Whether a file has more bytes than that.
fn is_too_long(bytes: &[u8]) -> bool
    ensures { result ≡ is_too_long bytes.now }
{
    bytes.len() > MAX_FILE_LENGTH
}

/// The font of a key, by its files, or its first fault: `Name`; then `Missing`, `TooLong` and `Tfm`
/// of the TFM file. Where there is a VF file, its `TooLong` and `Vf` follow, and `Size` where the
/// size or the design size of a local font lies outside 1 to 2^27 - 1 DVI units; where there is
/// none, `Size` of the resolution; then `TooLong` and `Pk` of the PK file or, where there is none,
/// `TooLong` and `Gf` of the GF file. Where there is neither, the font is bare: it has its widths
/// and no glyph. A file after the first fault isn't looked at, nor a PK or GF file beside a VF
/// file, nor a GF file beside a PK file.
///
/// The widths are those of the TFM file (Knuth, TFtoPL, "Font metric data"), scaled to the key's
/// size, the glyphs those of the PK file (Rokicki, PKtype, "Packed file format") or of the GF file
/// (Knuth, GFtype, "Generic font file format"), and the packets those of the VF file (Knuth,
/// VFtoVP, "Virtual fonts"). A local font's key has the size that its factor makes of the key's
/// size, and its design size in DVI units; both are scaled here, once.
pub fn decode(
    alloc: Global,
    key: &FontKey,
    files: &Files,
    units: &Units,
) -> Result<Decoded, NoMemory>
    requires units { AreUnits units.now }
    requires key { IsFontKey key.now }
    ensures { IfOk result (IsDecodingOf units.now key.now (bytes_of files.now)) }
{
    if !is_valid_name(key) {
        return Ok(Decoded::Fault(FontFault::Name));
    }
    match &files.tfm {
        Some(tfm) => decode_tfm(alloc, key, tfm, files, units),
        None => Ok(Decoded::Fault(FontFault::Missing(FileKind::Tfm))),
    }
}

// After a valid name: judges the TFM file.
fn decode_tfm(
    alloc: Global,
    key: &FontKey,
    tfm: &[u8],
    files: &Files,
    units: &Units,
) -> Result<Decoded, NoMemory>
    requires units { AreUnits units.now }
    requires key { IsFontKey key.now }
    ensures { IfOk result (DecodesTfm units.now key.now tfm.now (bytes_of files.now)) }
{
    if is_too_long(tfm) {
        return Ok(Decoded::Fault(FontFault::TooLong(FileKind::Tfm)));
    }
    match Tfm::read(alloc, tfm) {
        Ok(tfm) => decode_sound(alloc, key, &tfm, files, units),
        Err(TfmStop::Fault(fault)) => Ok(Decoded::Fault(FontFault::Tfm(fault))),
        Err(TfmStop::NoMemory) => Err(NoMemory),
    }
}

// After a sound TFM file: looks for a VF file.
fn decode_sound(
    alloc: Global,
    key: &FontKey,
    tfm: &Tfm,
    files: &Files,
    units: &Units,
) -> Result<Decoded, NoMemory>
    requires units { AreUnits units.now }
    requires key { IsFontKey key.now }
    ensures { IfOk result (λ d. (bytes : List ℕ) → IsTfmOf bytes tfm.now →
        DecodesSound units.now key.now bytes (bytes_of files.now) d) }
{
    match &files.vf {
        Some(vf) => decode_vf(alloc, key, tfm, vf, units),
        None => decode_packed(alloc, key, tfm, files, units),
    }
}

// Judges the VF file.
fn decode_vf(
    alloc: Global,
    key: &FontKey,
    tfm: &Tfm,
    vf: &[u8],
    units: &Units,
) -> Result<Decoded, NoMemory>
    requires units { AreUnits units.now }
    requires key { IsFontKey key.now }
    ensures { IfOk result (λ d. (bytes : List ℕ) → IsTfmOf bytes tfm.now →
        DecodesShortVf units.now key.now bytes vf.now d) }
{
    if is_too_long(vf) {
        return Ok(Decoded::Fault(FontFault::TooLong(FileKind::Vf)));
    }
    match VfFont::read(alloc, vf) {
        Ok(file) => decode_locals(alloc, key, tfm, file, units),
        Err(VfStop::Fault(fault)) => Ok(Decoded::Fault(FontFault::Vf(fault))),
        Err(VfStop::NoMemory) => Err(NoMemory),
    }
}

// Judges the sizes of the local fonts of a sound VF file, and makes the font.
fn decode_locals(
    alloc: Global,
    key: &FontKey,
    tfm: &Tfm,
    file: VfFont,
    units: &Units,
) -> Result<Decoded, NoMemory>
    requires units { AreUnits units.now }
    requires key { IsFontKey key.now }
    requires file { IsVfRead file }
    requires few { packets_weight file ≤ 8388608 }
    ensures { IfOk result (λ d. (bytes : List ℕ) (items : List (List ℕ)) → IsTfmOf bytes tfm.now →
        HasPacketsOf items file → DecodesItems units.now key.now bytes items d) }
{
    match local_keys(alloc, file.locals(), key.size, units)? {
        Some(keys) => {
            let widths = scaled_widths(alloc, tfm, key.size)?;
            let weight = file.weight() as u64;
            let shapes = Shapes::Virtual { file, keys };
            let font = Font::new(alloc, key.size, widths, shapes, weight)?;
            Ok(Decoded::Font(font))
        }
        None => Ok(Decoded::Fault(FontFault::Size)),
    }
}

// Without a VF file: judges the resolution.
fn decode_packed(
    alloc: Global,
    key: &FontKey,
    tfm: &Tfm,
    files: &Files,
    units: &Units,
) -> Result<Decoded, NoMemory>
    requires units { AreUnits units.now }
    requires key { IsFontKey key.now }
    ensures { IfOk result (λ d. (bytes : List ℕ) → IsTfmOf bytes tfm.now →
        DecodesPacked units.now key.now bytes (bytes_of files.now) d) }
{
    if is_resolution(dpi(units, key)) {
        decode_glyphs(alloc, key, tfm, files)
    } else {
        Ok(Decoded::Fault(FontFault::Size))
    }
}

// At a resolution in range: looks for a PK file, and then for a GF file.
fn decode_glyphs(
    alloc: Global,
    key: &FontKey,
    tfm: &Tfm,
    files: &Files,
) -> Result<Decoded, NoMemory>
    requires key { IsFontKey key.now }
    ensures { IfOk result (λ d. (bytes : List ℕ) → IsTfmOf bytes tfm.now →
        DecodesGlyphs key.now bytes (bytes_of files.now) d) }
{
    match (&files.pk, &files.gf) {
        (Some(pk), _) => decode_pk(alloc, key, tfm, pk),
        (None, Some(gf)) => decode_gf(alloc, key, tfm, gf),
        (None, None) => decode_bare(alloc, key, tfm),
    }
}

// Without a file of glyphs: makes the font of its widths alone.
fn decode_bare(alloc: Global, key: &FontKey, tfm: &Tfm) -> Result<Decoded, NoMemory>
    requires key { IsFontKey key.now }
    ensures { IfOk result (λ d. (bytes : List ℕ) → IsTfmOf bytes tfm.now →
        DecodesBare key.now bytes d) }
{
    let widths = scaled_widths(alloc, tfm, key.size)?;
    let font = Font::new(alloc, key.size, widths, Shapes::Bare, 0)?;
    Ok(Decoded::Bare(font))
}

// Judges the PK file, and makes the font.
fn decode_pk(alloc: Global, key: &FontKey, tfm: &Tfm, pk: &[u8]) -> Result<Decoded, NoMemory>
    requires key { IsFontKey key.now }
    ensures { IfOk result (λ d. (bytes : List ℕ) → IsTfmOf bytes tfm.now →
        DecodesShortPk key.now bytes pk.now d) }
{
    if is_too_long(pk) {
        return Ok(Decoded::Fault(FontFault::TooLong(FileKind::Pk)));
    }
    match PkFont::read(alloc, pk) {
        Ok(glyphs) => {
            let widths = scaled_widths(alloc, tfm, key.size)?;
            let weight = glyphs.weight();
            let shapes = Shapes::Packed(glyphs);
            let font = Font::new(alloc, key.size, widths, shapes, weight)?;
            Ok(Decoded::Font(font))
        }
        Err(PkStop::Fault(fault)) => Ok(Decoded::Fault(FontFault::Pk(fault))),
        Err(PkStop::NoMemory) => Err(NoMemory),
    }
}

// Judges the GF file, and makes the font.
fn decode_gf(alloc: Global, key: &FontKey, tfm: &Tfm, gf: &[u8]) -> Result<Decoded, NoMemory>
    requires key { IsFontKey key.now }
    ensures { IfOk result (λ d. (bytes : List ℕ) → IsTfmOf bytes tfm.now →
        DecodesShortGf key.now bytes gf.now d) }
{
    if is_too_long(gf) {
        return Ok(Decoded::Fault(FontFault::TooLong(FileKind::Gf)));
    }
    match GfFont::read(alloc, gf) {
        Ok(glyphs) => {
            let widths = scaled_widths(alloc, tfm, key.size)?;
            let weight = glyphs.weight();
            let shapes = Shapes::Generic(glyphs);
            let font = Font::new(alloc, key.size, widths, shapes, weight)?;
            Ok(Decoded::Font(font))
        }
        Err(GfStop::Fault(fault)) => Ok(Decoded::Fault(FontFault::Gf(fault))),
        Err(GfStop::NoMemory) => Err(NoMemory),
    }
}
