//! The table of a document's fonts.
ghost use Rattle.std.specs.Prelude.{◌≡◌, IfOk, OnErr, OnOk};
ghost use Rattle.std.specs.Option.{option_map};
ghost use Rattle.std.specs.Arc.{arc_value};
ghost use Rattle.std.specs.FinMap as map;
ghost use Rattle.page_index.specs.Judged.{define_fault, is_size as is_size_of, is_same_font};
ghost use Rattle.page_index.specs.Document.{key_of};
ghost use Rattle.dvi_commands.specs.Spelling.{value_of_definition};

use crate::faults::DocFault;
use crate::limits::SIZES;
use dvi_commands::FontDef;
use outside::{FontKey, FontName};
use std::alloc::{AllocError as NoMemory, Global};
use std::collections::BTreeMap;
use std::marker::Model;
use std::sync::Arc;

/// The keys of the fonts by their numbers. A contract sees it as a finite map.
#[derive(Drop)]
pub struct FontTable {
    keys: BTreeMap<i32, Arc<FontKey>>,
}

impl Model for FontTable {
    ghost use Rattle.std.specs.Prelude.{map as each};
    ghost use Rattle.std.specs.Arc.{arc_value};
    ghost use Rattle.std.specs.FinMap as map;
    ghost use Rattle.page_index.specs.Fonts.{Fonts, fonts_code};

    ghost Value = { Fonts };

    ghost coded = { fonts_code };

    ghost view = { λ t. map.from_entries
        (each (λ font. (font.0, arc_value font.1)) t.keys.entries) };
}

impl FontTable {
    /// No font.
    pub fn new(alloc: Global) -> FontTable
        ensures { result ≡ map.empty }
    {
        FontTable {
            keys: BTreeMap::new(alloc),
        }
    }

    /// The key of the font with this number.
    pub fn get(&self, number: i32) -> Option<&Arc<FontKey>>
        ensures { option_map (λ key. arc_value key.now) result ≡ map.get self.now number }
    {
        self.keys.get(&number)
    }

    /// Gives the number the key.
    pub fn add(&mut self, number: i32, key: Arc<FontKey>) -> Result<(), NoMemory>
        ensures ok { OnOk result (self.new ≡ map.insert self.old number (arc_value key)) }
        ensures err { OnErr result (self.new ≡ self.old) }
    {
        self.keys.insert(number, key)?;
        Ok(())
    }
}

fn is_size(size: i32) -> bool
    ensures { result ≡ is_size_of size }
{
    0 < size && size < SIZES
}

// Whether a definition says this key. The checksum isn't compared.
fn is_same(key: &FontKey, def: &FontDef) -> bool
    ensures { result ≡ is_same_font key.now (value_of_definition def.now) }
{
    i64::from(key.size) == i64::from(def.size)
        && i64::from(key.design) == i64::from(def.design)
        && key.area == def.area
        && key.name.bytes() == def.name
}

/// What is wrong with the definition at a place, where the number was defined to be `known` before.
pub fn fault_of(known: Option<&Arc<FontKey>>, at: usize, def: &FontDef) -> Option<DocFault>
    ensures { result ≡ define_fault (option_map (λ key. arc_value key.now) known.entry) at
        (value_of_definition def.now) }
{
    if !(is_size(def.size) && is_size(def.design)) {
        return Some(DocFault::FontDef {
            number: def.number,
            at,
        });
    }
    match known {
        Some(key) if !is_same(key, def) => Some(DocFault::FontClash {
            number: def.number,
            at,
        }),
        _ => None,
    }
}

/// The key of a definition whose sizes are right.
pub fn key(alloc: Global, def: &FontDef) -> Result<Arc<FontKey>, NoMemory>
    ensures { IfOk result (λ key. arc_value key ≡ key_of (value_of_definition def.now)) }
{
    let key = FontKey {
        area: def.area,
        name: FontName::new(alloc, def.name)?,
        size: def.size.unsigned_abs(),
        design: def.design.unsigned_abs(),
    };
    Ok(Arc::new(alloc, key)?)
}
