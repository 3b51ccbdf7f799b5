//! Commands with several fields.

ghost use Rattle.std.specs.Prelude.{◌≡◌, ◌≤◌, ◌<◌, ◌+◌, ◌-◌, ◌^◌, ◌++◌, ◌∷◌, [], pos, length, flat_map, OnErr, OnOk};
ghost use Rattle.std.specs.List.{AllByRecursion};
ghost use Rattle.big_endian.specs.Numbers.{IsSigned, number_bytes};
ghost use Rattle.dvi_commands.specs.ShortestSpelling.{shortest_spelling};
ghost use Rattle.dvi_commands.specs.Spelling.{Bop, Define, Special, Spells, quad, value_of_definition};
ghost use Rattle.dvi_commands.specs.Writing.{IsAreaInName, IsRestShort, MAX_SPECIAL_LENGTH};

use super::numbers::{number_width, quad_at, quad_bytes};
use super::parts::append;
use crate::command::FontDef;
use std::alloc::AllocError as NoMemory;

pub(super) fn append_rule(
    out: &mut Vec<u8>,
    opcode: u8,
    height: i32,
    width: i32,
) -> Result<(), NoMemory>
    ensures appended { OnOk result (out.new.items ≡ out.old.items ++
        (opcode ∷ quad height ++ quad width)) }
    ensures unchanged { OnErr result (out.new.items ≡ out.old.items) }
    ensures height { IsSigned 4 height }
    ensures width { IsSigned 4 width }
{
    append(out, &[&[opcode], &quad_bytes(height), &quad_bytes(width)])
}

pub(super) fn append_bop(out: &mut Vec<u8>, counts: &[i32; 10], back: i32) -> Result<(), NoMemory>
    ensures appended { OnOk result (out.new.items ≡ out.old.items ++ shortest_spelling
        (Bop counts.now back)) }
    ensures unchanged { OnErr result (out.new.items ≡ out.old.items) }
    ensures spelled { Spells (Bop counts.now back) (shortest_spelling (Bop counts.now back)) }
{
    append(
        out,
        &[
            &[139],
            &quad_at(counts, 0),
            &quad_at(counts, 1),
            &quad_at(counts, 2),
            &quad_at(counts, 3),
            &quad_at(counts, 4),
            &quad_at(counts, 5),
            &quad_at(counts, 6),
            &quad_at(counts, 7),
            &quad_at(counts, 8),
            &quad_at(counts, 9),
            &quad_bytes(back),
        ],
    )
}

pub(super) fn append_special(out: &mut Vec<u8>, text: &[u8]) -> Result<(), NoMemory>
    requires { length text.now ≤ MAX_SPECIAL_LENGTH }
    ensures appended { OnOk result (out.new.items ≡ out.old.items ++ shortest_spelling
        (Special text.now)) }
    ensures unchanged { OnErr result (out.new.items ≡ out.old.items) }
    ensures spelled { Spells (Special text.now) (shortest_spelling (Special text.now)) }
{
    let length = text.len() as i32;
    let width = number_width(length);
    append(
        out,
        &[&[238 + width as u8], &quad_bytes(length)[4 - width..], text],
    )
}

pub(super) fn append_definition(out: &mut Vec<u8>, definition: &FontDef) -> Result<(), NoMemory>
    requires area { IsAreaInName (Define (value_of_definition definition.now)) }
    requires rest { IsRestShort (Define (value_of_definition definition.now)) }
    ensures appended { OnOk result (out.new.items ≡ out.old.items ++ shortest_spelling
        (Define (value_of_definition definition.now))) }
    ensures unchanged { OnErr result (out.new.items ≡ out.old.items) }
    ensures spelled { Spells (Define (value_of_definition definition.now))
        (shortest_spelling (Define (value_of_definition definition.now))) }
{
    let area = definition.area;
    let rest = definition.name.len() - area as usize;
    let width = number_width(definition.number);
    append(
        out,
        &[
            &[242 + width as u8],
            &quad_bytes(definition.number)[4 - width..],
            &definition.check.to_be_bytes(),
            &quad_bytes(definition.size),
            &quad_bytes(definition.design),
            &[area, rest as u8],
            definition.name,
        ],
    )
}

pub(super) fn append_preamble(
    out: &mut Vec<u8>,
    id: u8,
    numbers: &[i32; 3],
    text: &[u8],
) -> Result<(), NoMemory>
    requires { length text.now ≤ 255 }
    ensures appended { OnOk result (out.new.items ≡ out.old.items ++
        (247 ∷ id ∷ flat_map quad numbers.now ++ length text.now ∷ text.now)) }
    ensures unchanged { OnErr result (out.new.items ≡ out.old.items) }
    ensures fits { AllByRecursion (IsSigned 4) numbers.now }
    ensures id { id < 256 }
{
    append(
        out,
        &[
            &[247, id],
            &quad_at(numbers, 0),
            &quad_at(numbers, 1),
            &quad_at(numbers, 2),
            &[text.len() as u8],
            text,
        ],
    )
}

pub(super) fn append_post(
    out: &mut Vec<u8>,
    numbers: &[i32; 6],
    deepest: u16,
    pages: u16,
) -> Result<(), NoMemory>
    ensures appended { OnOk result (out.new.items ≡ out.old.items ++
        (248 ∷ flat_map quad numbers.now ++ number_bytes 2 (pos deepest)
        ++ number_bytes 2 (pos pages))) }
    ensures unchanged { OnErr result (out.new.items ≡ out.old.items) }
    ensures fits { AllByRecursion (IsSigned 4) numbers.now }
    ensures deepest { deepest < 2 ^ 16 }
    ensures pages { pages < 2 ^ 16 }
{
    append(
        out,
        &[
            &[248],
            &quad_at(numbers, 0),
            &quad_at(numbers, 1),
            &quad_at(numbers, 2),
            &quad_at(numbers, 3),
            &quad_at(numbers, 4),
            &quad_at(numbers, 5),
            &deepest.to_be_bytes(),
            &pages.to_be_bytes(),
        ],
    )
}

pub(super) fn append_post_post(out: &mut Vec<u8>, post: i32, id: u8) -> Result<(), NoMemory>
    ensures appended { OnOk result (out.new.items ≡ out.old.items ++ (249 ∷ quad post ++ id ∷ [])) }
    ensures unchanged { OnErr result (out.new.items ≡ out.old.items) }
    ensures fits { IsSigned 4 post }
    ensures id { id < 256 }
{
    append(out, &[&[249], &quad_bytes(post), &[id]])
}
