//! Run lengths and repeat counts, written in nybbles.

ghost use Rattle.std.specs.Prelude.{◌≡◌, ◌<◌, ◌≤◌, ◌++◌, ◌∷◌, ◌^◌, [], OnOk, length};
ghost use Rattle.std.specs.Int.Digits.{digits_of};
ghost use Rattle.pk_runs.specs.Numbers.{Run};
ghost use Rattle.pk_packer.specs.Held.{nybbles_written};
ghost use Rattle.pk_packer.specs.Spelling.{items_text, long_text, number_text};
ghost use Rattle.pk_packer.specs.Written.{with_count};

use crate::digits::digit_count;
use crate::numbers::{greatest_short, long_value};
use crate::nybbles::Nybbles;
use std::alloc::AllocError as NoMemory;

// Writes a number of more than two nybbles: a zero, and as many bytes as there are further digits.
// Most runs of more than a few thousand pixels have four digits, which are written at once.
#[inline(always)]
fn write_long(out: &mut Nybbles, value: u32) -> Result<(), NoMemory>
    requires long { 16 ≤ value }
    requires high { out.old.high < 16 }
    ensures written { OnOk result (nybbles_written out.new
        ≡ nybbles_written out.old ++ long_text value) }
    ensures high { out.new.high < 16 }
{
    if value >= 4096 && value < 65536 {
        return out.push_four(value as u16);
    }
    let bytes = digit_count(value) - 1;
    out.push(0)?;
    for i in 0..bytes {
        let until = u64::from(value) >> (8 * (bytes - 1 - i));
        out.push_byte((until % 256) as u8)?;
    }
    Ok(())
}

// Writes a number.
#[inline(always)]
fn write_number(out: &mut Nybbles, dyn_f: u8, n: u32) -> Result<(), NoMemory>
    requires form { dyn_f ≤ 13 }
    requires small { n < 2 ^ 30 }
    requires high { out.old.high < 16 }
    ensures written { OnOk result (nybbles_written out.new
        ≡ nybbles_written out.old ++ number_text dyn_f n) }
    ensures high { out.new.high < 16 }
{
    if n <= u32::from(dyn_f) {
        out.push(n as u8)
    } else if n <= greatest_short(dyn_f) {
        let more = n - u32::from(dyn_f) - 1;
        out.push_byte(more as u8 + 16 * (dyn_f + 1))
    } else {
        write_long(out, long_value(dyn_f, n))
    }
}

// Writes a repeat count, and nothing for 0.
#[inline(always)]
fn write_count(out: &mut Nybbles, dyn_f: u8, n: u32) -> Result<(), NoMemory>
    requires form { dyn_f ≤ 13 }
    requires small { n < 2 ^ 30 }
    requires high { out.old.high < 16 }
    ensures written { OnOk result (nybbles_written out.new
        ≡ nybbles_written out.old ++ items_text dyn_f (with_count n [])) }
    ensures high { out.new.high < 16 }
{
    match n {
        0 => Ok(()),
        1 => out.push(15),
        _ => write_many(out, dyn_f, n),
    }
}

// Writes a repeat count of several copies.
fn write_many(out: &mut Nybbles, dyn_f: u8, n: u32) -> Result<(), NoMemory>
    requires form { dyn_f ≤ 13 }
    requires some { 2 ≤ n }
    requires small { n < 2 ^ 30 }
    requires high { out.old.high < 16 }
    ensures written { OnOk result (nybbles_written out.new
        ≡ nybbles_written out.old ++ items_text dyn_f (with_count n [])) }
    ensures high { out.new.high < 16 }
{
    out.push(14)?;
    write_number(out, dyn_f, n)
}

/// Writes a run, after the repeat count before it, or 0.
#[inline(always)]
pub fn write_run(out: &mut Nybbles, dyn_f: u8, count: u32, len: u32) -> Result<(), NoMemory>
    requires form { dyn_f ≤ 13 }
    requires count { count < 2 ^ 30 }
    requires len { len < 2 ^ 30 }
    requires high { out.old.high < 16 }
    ensures written { OnOk result (nybbles_written out.new
        ≡ nybbles_written out.old ++ items_text dyn_f (Run len ∷ with_count count [])) }
    ensures high { out.new.high < 16 }
{
    write_count(out, dyn_f, count)?;
    write_number(out, dyn_f, len)
}
