//! PK files of given glyphs (Rokicki, PKtype, "Packed file format").
ghost use Rattle.std.specs.Prelude.{◌≡◌, ℕ, ◌+◌, ◌*◌, ◌^◌, ◌<◌, ◌≤◌, ◌++◌, ◌∷◌, ◌&&◌, List, All, IfOk, IsTrue, OnOk, if◌then◌else◌, length, nat_lt, pos, replicate};
ghost use Rattle.std.specs.List.{flat_map};
ghost use Rattle.big_endian.specs.Numbers.{IsSigned, number_bytes};
ghost use Rattle.packed_rows.specs.Bitmap.{IsShaped};
ghost use Rattle.pk_packer.specs.Choice.{plain_size};
ghost use Rattle.pk_packets.specs.Fonts.{IsAnswer, IsPkFile};
ghost use Rattle.pk_packets.specs.Written.{extended_packet, long_packet, short_packet};
ghost use Rattle.pk_runs.specs.Limits.{MAX_GLYPH_SIDE, MAX_RASTER_BYTES};
ghost use Rattle.sample_maker.specs.Coded.{seen};
ghost use Rattle.sample_maker.specs.PkFile.{IsBounded, IsMeasured, fields, file_in, glyph_given, has_form, have_own_codes, is_signed, no_ops_after, packed_file, packet_item, packet_with, pk_file, sides, size_sum};

use crate::coded::{Coded, Coding, encode};
use pk_runs::{Glyph, Raster};
use std::alloc::{AllocError as NoMemory, Global};

// ---- the numbers

// Appends the low `n` bytes of a number.
fn append_unsigned(number: u32, n: usize, out: &mut Vec<u8>) -> Result<(), NoMemory>
    requires some { 1 ≤ n }
    requires few { n ≤ 4 }
    ensures { OnOk result (out.new.items ≡ out.old.items ++ number_bytes n (pos number)) }
{
    out.extend_from_slice(&number.to_be_bytes()[4 - n..])
}

// The same in two's complement, of a number that `n` bytes hold.
fn append_signed(number: i32, n: usize, out: &mut Vec<u8>) -> Result<(), NoMemory>
    requires some { 1 ≤ n }
    requires few { n ≤ 4 }
    requires held { IsSigned n number }
    ensures { OnOk result (out.new.items ≡ out.old.items ++ number_bytes n number) }
{
    out.extend_from_slice(&number.to_be_bytes()[4 - n..])
}

// Appends the sides and the offsets, `n` bytes each.
fn append_sides(glyph: &Glyph, n: usize, out: &mut Vec<u8>) -> Result<(), NoMemory>
    requires some { 1 ≤ n }
    requires few { n ≤ 4 }
    requires hoff { IsSigned n glyph.now.hoff }
    requires voff { IsSigned n glyph.now.voff }
    ensures { OnOk result (out.new.items ≡ out.old.items ++ sides n glyph.now) }
{
    append_unsigned(glyph.raster.width(), n, out)?;
    append_unsigned(glyph.raster.height(), n, out)?;
    append_signed(glyph.hoff, n, out)?;
    append_signed(glyph.voff, n, out)
}

// ---- the three forms of a packet

// Whether both sides of a raster are below this number.
fn sides_below(raster: &Raster, most: u32) -> bool
    ensures below { result ≡ nat_lt raster.now.width most && nat_lt raster.now.height most }
    ensures narrow { raster.now.width ≤ MAX_GLYPH_SIDE }
    ensures low { raster.now.height ≤ MAX_GLYPH_SIDE }
    ensures shaped { IsShaped raster.now }
{
    let bits = raster.bits();
    bits.width() < most && bits.height() < most
}

// Whether one byte holds the number in two's complement.
fn one_byte_holds(number: i32) -> bool
    ensures held { result ≡ is_signed 1 number }
    ensures range { IsSigned 4 number }
{
    -128 <= number && number < 128
}

// Whether two bytes do.
fn two_bytes_hold(number: i32) -> bool
    ensures held { result ≡ is_signed 2 number }
    ensures range { IsSigned 4 number }
{
    -32768 <= number && number < 32768
}

// Whether the short form holds the numbers of a glyph with this raster.
fn is_short(glyph: &Glyph, raster: &Coded) -> bool
    ensures form { result ≡ has_form 1 8 1024 (seen raster.now) glyph.now }
    ensures bounded { IsBounded glyph.now }
{
    let sides = sides_below(&glyph.raster, 256);
    let hoff = one_byte_holds(glyph.hoff);
    let voff = one_byte_holds(glyph.voff);
    sides && hoff && voff && 8 + raster.bytes.len() < 1024
}

// Whether the extended form does.
fn is_extended(glyph: &Glyph, raster: &Coded) -> bool
    ensures { result ≡ has_form 2 13 196608 (seen raster.now) glyph.now }
{
    let sides = sides_below(&glyph.raster, 65536);
    let hoff = two_bytes_hold(glyph.hoff);
    let voff = two_bytes_hold(glyph.voff);
    sides && hoff && voff && 13 + raster.bytes.len() < 3 * 65536
}

// The flag of a packet, with the low three bits that its form gives it.
fn flag(raster: &Coded, low: u8) -> u8
    requires form { raster.now.dyn_f ≤ 14 }
    requires low { low < 8 }
    ensures { result ≡ 16 * raster.now.dyn_f + (if raster.now.first_black then 8 else 0) + low }
{
    16 * raster.dyn_f + 8 * u8::from(raster.first_black) + low
}

// Appends a packet in the short form.
fn append_short(code: u8, glyph: &Glyph, raster: &Coded, out: &mut Vec<u8>) -> Result<(), NoMemory>
    requires dyn_f { raster.now.dyn_f ≤ 14 }
    requires form { IsTrue (has_form 1 8 1024 (seen raster.now) glyph.now) }
    ensures { OnOk result (out.new.items
        ≡ out.old.items ++ short_packet (fields 4 (seen raster.now) (code, glyph.now))) }
{
    let length = 8 + raster.bytes.len();
    let flag = flag(raster, (length / 256) as u8);
    out.extend_from_slice(&[flag, (length % 256) as u8, code, 0, 0, 0, 0])?;
    append_sides(glyph, 1, out)?;
    out.extend_from_slice(&raster.bytes)
}

// Appends a packet in the extended form.
fn append_extended(
    code: u8,
    glyph: &Glyph,
    raster: &Coded,
    out: &mut Vec<u8>,
) -> Result<(), NoMemory>
    requires dyn_f { raster.now.dyn_f ≤ 14 }
    requires form { IsTrue (has_form 2 13 196608 (seen raster.now) glyph.now) }
    ensures { OnOk result (out.new.items
        ≡ out.old.items ++ extended_packet (fields 5 (seen raster.now) (code, glyph.now))) }
{
    let length = 13 + raster.bytes.len();
    out.push(flag(raster, 4 + (length / 65536) as u8))?;
    out.extend_from_slice(&((length % 65536) as u16).to_be_bytes())?;
    out.extend_from_slice(&[code, 0, 0, 0, 0, 0])?;
    append_sides(glyph, 2, out)?;
    out.extend_from_slice(&raster.bytes)
}

// Appends a packet in the long form.
fn append_long(code: u8, glyph: &Glyph, raster: &Coded, out: &mut Vec<u8>) -> Result<(), NoMemory>
    requires dyn_f { raster.now.dyn_f ≤ 14 }
    requires few { length raster.now.bytes.items ≤ 2 ^ 25 }
    requires bounded { IsBounded glyph.now }
    ensures { OnOk result (out.new.items
        ≡ out.old.items ++ long_packet (fields 12 (seen raster.now) (code, glyph.now))) }
{
    let length = 28 + raster.bytes.len();
    out.push(flag(raster, 7))?;
    out.extend_from_slice(&(length as u32).to_be_bytes())?;
    out.extend_from_slice(&[0, 0, 0, code, 0, 0, 0, 0, 0, 0, 0, 0, 0, 0, 0, 0])?;
    append_sides(glyph, 4, out)?;
    out.extend_from_slice(&raster.bytes)
}

// Appends a packet in the first form that holds its numbers.
fn append_packet(code: u8, glyph: &Glyph, raster: &Coded, out: &mut Vec<u8>) -> Result<(), NoMemory>
    requires dyn_f { raster.now.dyn_f ≤ 14 }
    requires few { length raster.now.bytes.items ≤ plain_size glyph.now.raster }
    ensures appended { OnOk result (
        out.new.items ≡ out.old.items ++ packet_with (seen raster.now) (code, glyph.now)) }
    ensures bounded { IsBounded glyph.now }
{
    if is_short(glyph, raster) {
        append_short(code, glyph, raster, out)
    } else if is_extended(glyph, raster) {
        append_extended(code, glyph, raster, out)
    } else {
        append_long(code, glyph, raster, out)
    }
}

// ---- the file

// Appends a glyph's packet, with its raster coded.
fn append_glyph(
    alloc: Global,
    glyph: &(u8, Glyph),
    coding: Coding,
    out: &mut Vec<u8>,
) -> Result<(), NoMemory>
    ensures appended { OnOk result (
        out.new.items ≡ out.old.items ++ packet_item coding glyph.now) }
    ensures measured { OnOk result (IsMeasured coding glyph.now) }
{
    let raster = encode(alloc, &glyph.1.raster, coding)?;
    append_packet(glyph.0, &glyph.1, &raster, out)
}

// Appends the packets.
fn append_packets(
    alloc: Global,
    glyphs: &[(u8, Glyph)],
    coding: Coding,
    out: &mut Vec<u8>,
) -> Result<(), NoMemory>
    ensures appended { OnOk result (
        out.new.items ≡ out.old.items ++ flat_map (packet_item coding) glyphs.now) }
    ensures measured { OnOk result (All (IsMeasured coding) glyphs.now) }
{
    for i in 0..glyphs.len() {
        append_glyph(alloc, &glyphs[i], coding, out)?;
    }
    Ok(())
}

// Appends the closing command, and no-ops up to a multiple of four.
fn append_closing(out: &mut Vec<u8>) -> Result<(), NoMemory>
    ensures { OnOk result (
        out.new.items ≡ out.old.items
        ++ 245 ∷ replicate (no_ops_after (length out.old.items)) 246) }
{
    out.push(245)?;
    let count = (4 - out.len() % 4) % 4;
    for _ in 0..count {
        out.push(246)?;
    }
    Ok(())
}

// A PK file of these glyphs, whose rasters are coded in this way.
fn file(alloc: Global, glyphs: &[(u8, Glyph)], coding: Coding) -> Result<Vec<u8>, NoMemory>
    requires codes { IsTrue (have_own_codes glyphs.now) }
    requires few { size_sum glyphs.now ≤ MAX_RASTER_BYTES }
    ensures bytes { IfOk result (λ bytes. bytes.items ≡ file_in coding glyphs.now) }
    ensures sound { IfOk result (λ bytes. (items : List (List ℕ)) × IsPkFile bytes.items items) }
    ensures read_again { IfOk result (λ bytes. (items : List (List ℕ)) → IsPkFile bytes.items items
        → (c : ℕ) → IsAnswer items c (glyph_given glyphs.now c)) }
{
    let mut out = Vec::new(alloc);
    out.extend_from_slice(&[
        0xf7, 0x59, 0, 0, 0xa0, 0, 0, 0, 0, 0, 0, 0, 0x04, 0x26, 0xae, 0, 0x04, 0x26, 0xae,
    ])?;
    append_packets(alloc, glyphs, coding, &mut out)?;
    append_closing(&mut out)?;
    Ok(out)
}

/// A PK file of these glyphs, each with its code, as plain bitmaps in the first form of a packet
/// that holds their numbers. The checksum, the TFM widths and the escapements are 0, the design
/// size is 10 points, and there are 300 dots an inch. The codes are distinct, and the rasters, each
/// row in whole bytes, take at most 8,388,608 bytes, the most that a reader takes. A reader finds
/// each raster pixel for pixel, with its offsets, under its code, and no glyph under another.
///
/// `NoMemory` when out of memory. Rokicki, PKtype, "Packed file format".
pub fn pk_bytes(alloc: Global, glyphs: &[(u8, Glyph)]) -> Result<Vec<u8>, NoMemory>
    requires codes { IsTrue (have_own_codes glyphs.now) }
    requires few { size_sum glyphs.now ≤ MAX_RASTER_BYTES }
    ensures bytes { IfOk result (λ bytes. bytes.items ≡ pk_file glyphs.now) }
    ensures sound { IfOk result (λ bytes. (items : List (List ℕ)) × IsPkFile bytes.items items) }
    ensures read_again { IfOk result (λ bytes. (items : List (List ℕ)) → IsPkFile bytes.items items
        → (c : ℕ) → IsAnswer items c (glyph_given glyphs.now c)) }
{
    file(alloc, glyphs, Coding::Plain)
}

/// The same as `pk_bytes` with each raster as `pk_packer::pack` gives it: its `dyn_f`, the colour
/// of its first run and its bytes. No other form of the raster takes fewer bytes. A reader finds
/// the same glyphs.
///
/// `NoMemory` when out of memory. Rokicki, PKtype, "Packed file format".
pub fn pk_packed(alloc: Global, glyphs: &[(u8, Glyph)]) -> Result<Vec<u8>, NoMemory>
    requires codes { IsTrue (have_own_codes glyphs.now) }
    requires few { size_sum glyphs.now ≤ MAX_RASTER_BYTES }
    ensures bytes { IfOk result (λ bytes. bytes.items ≡ packed_file glyphs.now) }
    ensures sound { IfOk result (λ bytes. (items : List (List ℕ)) × IsPkFile bytes.items items) }
    ensures read_again { IfOk result (λ bytes. (items : List (List ℕ)) → IsPkFile bytes.items items
        → (c : ℕ) → IsAnswer items c (glyph_given glyphs.now c)) }
{
    file(alloc, glyphs, Coding::Packed)
}
