//! Local fonts, and what is wrong with their definitions.
ghost use Rattle.std.specs.Prelude.{◌≡◌, ◌≤◌, ◌<◌, ◌+◌, ◌^◌, IfOk, IsFalse, length};
ghost use Rattle.std.specs.Option.{option_copied};
ghost use Rattle.big_endian.specs.Fields as fields;
ghost use Rattle.big_endian.specs.Numbers.{IsSigned};
ghost use Rattle.dvi_commands.specs.Reading.{code};
ghost use Rattle.dvi_commands.specs.Spelling.{value_of_definition};
ghost use Rattle.vf_reader.specs.Items.{IsItem, definition_of, is_packet};
ghost use Rattle.vf_reader.specs.Locals.{definition_fault, is_factor as is_factor_of, is_same_local, local_of};

use crate::VfFault;
use crate::limits::FIX_WORDS;
use crate::opcodes::LONG_PACKET;
use big_endian::{signed, unsigned};
use dvi_commands::FontDef;
use outside::FontName;
use std::alloc::{AllocError as NoMemory, Global};

/// The definition of a font that packets use, by its number. The name begins with the area, of
/// which `area` is the length. `factor` is the size as a part of the virtual font's size, and
/// `points` the design size in points, both fix_words.
#[derive(Debug, Drop, PartialEq, Eq)]
pub struct LocalDef {
    pub number: i32,
    pub area: u8,
    pub name: FontName,
    pub factor: u32,
    pub points: u32,
}

// The number that n bytes from a place on spell, unsigned.
fn unsigned_at(bytes: &[u8], at: usize, n: usize) -> u32
    requires some { 1 ≤ n }
    requires few { n ≤ 4 }
    requires inside { at + n ≤ length bytes.now }
    ensures number { result ≡ fields.unsigned_at bytes.now at n }
    ensures fits { result < 256 ^ n }
{
    unsigned(&bytes[at..at + n])
}

// The same in two's complement.
fn signed_at(bytes: &[u8], at: usize, n: usize) -> i32
    requires some { 1 ≤ n }
    requires few { n ≤ 4 }
    requires inside { at + n ≤ length bytes.now }
    ensures { result ≡ fields.signed_at bytes.now at n }
{
    signed(&bytes[at..at + n])
}

// The number of a font: up to three bytes spell it unsigned, four bytes signed.
fn number(fields: &[u8], n: usize) -> i32
    requires some { 1 ≤ n }
    requires few { n ≤ 4 }
    requires inside { n ≤ length fields.now }
    ensures { result ≡ code n fields.now }
{
    if n == 4 {
        signed_at(fields, 0, 4)
    } else {
        unsigned_at(fields, 0, n) as i32
    }
}

/// The definition that an item holds, with the name where it lies in the bytes.
pub fn definition(item: &[u8]) -> FontDef<'_>
    requires item { IsItem item.now }
    requires kind { IsFalse (is_packet item.now) }
    ensures fields { value_of_definition result ≡ definition_of item.now }
    ensures fits { IsSigned 4 result.number }
{
    let n = usize::from(item[0] - LONG_PACKET);
    let fields = &item[1..];
    FontDef {
        number: number(fields, n),
        check: unsigned_at(fields, n, 4),
        size: signed_at(fields, n + 4, 4),
        design: signed_at(fields, n + 8, 4),
        area: fields[n + 12],
        name: &fields[n + 14..],
    }
}

fn is_factor(factor: i32) -> bool
    ensures { result ≡ is_factor_of factor }
{
    0 < factor && factor < FIX_WORDS
}

// Whether a definition says the same as an earlier one. The checksum isn't compared.
fn is_same(known: &LocalDef, def: &FontDef) -> bool
    ensures { result ≡ is_same_local known.now (local_of (value_of_definition def.now)) }
{
    known.factor == def.size.unsigned_abs()
        && known.points == def.design.unsigned_abs()
        && known.area == def.area
        && known.name.bytes() == def.name
}

/// What is wrong with a definition, where its number was defined to be `known` before.
pub fn fault_of(known: Option<&LocalDef>, def: &FontDef) -> Option<VfFault>
    ensures { result ≡ definition_fault (option_copied known.entry) (value_of_definition def.now) }
{
    if !(is_factor(def.size) && 0 < def.design) {
        return Some(VfFault::LocalDef(def.number));
    }
    match known {
        Some(known) if !is_same(known, def) => Some(VfFault::LocalDef(def.number)),
        _ => None,
    }
}

/// The local font of a definition whose sizes are right.
pub fn local(alloc: Global, def: &FontDef) -> Result<LocalDef, NoMemory>
    ensures { IfOk result (λ local. local ≡ local_of (value_of_definition def.now)) }
{
    Ok(LocalDef {
        number: def.number,
        area: def.area,
        name: FontName::new(alloc, def.name)?,
        factor: def.size.unsigned_abs(),
        points: def.design.unsigned_abs(),
    })
}
