//! The beginning of a character.
ghost use Rattle.std.specs.Prelude.{◌≡◌, ◌≤◌, ◌≤ℤ◌, ◌<◌, ◌+◌, ◌*◌, IfErr, IfOk, IsFalse, IsTrue, List, ℕ, OnOk, false, length, neg_ℤ, pos};
ghost use Rattle.std.specs.Int.{div_ceil};
ghost use Rattle.pk_runs.specs.Limits as limits;
ghost use Rattle.gf_reader.specs.Characters.{code_of, extent, height_of, raster_side, width_of};
ghost use Rattle.gf_reader.specs.Faults.{is_too_big};
ghost use Rattle.gf_reader.specs.Items.{IsItem, begins_character, opcode};
ghost use Rattle.gf_reader.specs.Reading.{IsHeadOf};
ghost use Rattle.gf_reader.specs.declared.faults.GfFault.TheVariants as fault;

use crate::GfFault;
use crate::fields::{signed_at, unsigned_at};
use crate::opcodes::BOC;
use pk_runs::{MAX_GLYPH_SIDE, MAX_RASTER_BYTES};

/// The fields of the item that begins a character: its code, and the first and the last of its
/// columns and of its rows, which count upwards.
#[derive(Clone, Copy)]
pub struct Head {
    pub code: i32,
    pub min_m: i32,
    pub max_m: i32,
    pub min_n: i32,
    pub max_n: i32,
}

/// The sides of a raster.
#[derive(Clone, Copy)]
pub struct Sides {
    pub width: u32,
    pub height: u32,
}

impl Head {
    /// The fields of a whole item.
    pub fn of(item: &[u8]) -> Head
        requires kind { IsTrue (begins_character (opcode item.now)) }
        requires whole { IsItem false item.now }
        ensures { IsHeadOf result item.now }
    {
        if item[0] == BOC {
            Head::long(item)
        } else {
            Head::short(item)
        }
    }

    // With four bytes a field. Between the code and the columns stands where an earlier character
    // with a code like it began.
    fn long(item: &[u8]) -> Head
        requires kind { opcode item.now ≡ 67 }
        requires whole { length item.now ≡ 25 }
        ensures { IsHeadOf result item.now }
    {
        Head {
            code: signed_at(item, 1, 4),
            min_m: signed_at(item, 9, 4),
            max_m: signed_at(item, 13, 4),
            min_n: signed_at(item, 17, 4),
            max_n: signed_at(item, 21, 4),
        }
    }

    // With one byte a field.
    fn short(item: &[u8]) -> Head
        requires kind { opcode item.now ≡ 68 }
        requires whole { length item.now ≡ 6 }
        ensures { IsHeadOf result item.now }
    {
        let max_m = unsigned_at(item, 3, 1) as i32;
        let max_n = unsigned_at(item, 5, 1) as i32;
        Head {
            code: unsigned_at(item, 1, 1) as i32,
            min_m: max_m - unsigned_at(item, 2, 1) as i32,
            max_m,
            min_n: max_n - unsigned_at(item, 4, 1) as i32,
            max_n,
        }
    }

    /// The sides of the raster, or `TooBig`.
    pub fn sides(&self) -> Result<Sides, GfFault>
        ensures sides { (item : List ℕ) → IsHeadOf self.now item → IfOk result (λ s.
            (s.width ≡ width_of item) × (s.height ≡ height_of item)
            × IsFalse (is_too_big item)) }
        ensures narrow { IfOk result (λ s. s.width ≤ limits.MAX_GLYPH_SIDE) }
        ensures low { IfOk result (λ s. s.height ≤ limits.MAX_GLYPH_SIDE) }
        ensures first { OnOk result (neg_ℤ (pos 2147483647) ≤ℤ self.now.min_m) }
        ensures fault { (item : List ℕ) → IsHeadOf self.now item → IfErr result (λ f.
            IsTrue (is_too_big item) × (f ≡ fault.TooBig (code_of item))) }
    {
        let columns = extent(self.min_m, self.max_m);
        let rows = extent(self.min_n, self.max_n);
        let longest = u64::from(MAX_GLYPH_SIDE);
        if columns > longest || rows > longest || self.min_m == i32::MIN {
            return Err(GfFault::TooBig(self.code));
        }
        Ok(Sides {
            width: raster_side(rows, columns),
            height: raster_side(columns, rows),
        })
    }
}

// How many numbers lie from the least to the greatest.
fn extent(least: i32, greatest: i32) -> u64
    ensures { result ≡ extent least greatest }
{
    let count = i64::from(greatest) - i64::from(least) + 1;
    if count < 0 { 0 } else { count as u64 }
}

// A side of a raster, which has none beside an empty one.
fn raster_side(other: u64, side: u64) -> u32
    requires { side ≤ limits.MAX_GLYPH_SIDE }
    ensures { result ≡ raster_side other side }
{
    if other == 0 { 0 } else { side as u32 }
}

/// The bytes that the rasters take with one of these sides, where those before it take n, or
/// `FontTooBig`.
pub fn sum_with(sides: &Sides, before: u32) -> Result<u32, GfFault>
    requires narrow { sides.now.width ≤ limits.MAX_GLYPH_SIDE }
    requires low { sides.now.height ≤ limits.MAX_GLYPH_SIDE }
    requires few { before ≤ limits.MAX_RASTER_BYTES }
    ensures sum { IfOk result (λ sum. sum ≡ before + sides.now.height
        * div_ceil sides.now.width 8) }
    ensures few { IfOk result (λ sum. sum ≤ limits.MAX_RASTER_BYTES) }
    ensures fault { IfErr result (λ f. (limits.MAX_RASTER_BYTES < before + sides.now.height
        * div_ceil sides.now.width 8) × (f ≡ fault.FontTooBig)) }
{
    let sum = before + sides.height * sides.width.div_ceil(8);
    if sum > MAX_RASTER_BYTES {
        return Err(GfFault::FontTooBig);
    }
    Ok(sum)
}
