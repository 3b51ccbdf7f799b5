//! Reading a GF file.
ghost use Rattle.std.specs.Prelude.{◌≡◌, ◌≤◌, ◌∷◌, IfErr, IfOk, List, MatchResult, None, OnOk, Some, ℕ, false, if◌then◌else◌, pos};
ghost use Rattle.big_endian.specs.Numbers.{int_eq};
ghost use Rattle.packed_rows.specs.Bitmap.{IsShaped};
ghost use Rattle.pk_runs.specs.Limits.{MAX_GLYPH_SIDE, MAX_RASTER_BYTES};
ghost use Rattle.gf_reader.specs.Characters.{Character, raster_sum};
ghost use Rattle.gf_reader.specs.Faults.{fault_of_item};
ghost use Rattle.gf_reader.specs.FirstFault.{IsFirstFault};
ghost use Rattle.gf_reader.specs.Fonts.{Glyphs, HasGlyphsOf, IsGfFile, glyph_of};
ghost use Rattle.gf_reader.specs.Items.{IsItem};
ghost use Rattle.gf_reader.specs.Reading.{IsRead};
ghost use Rattle.gf_reader.specs.Stops.{IfFault};
ghost use Rattle.gf_reader.specs.declared.faults.GfFault.{GfFault};
ghost use Rattle.gf_reader.specs.declared.faults.GfStop.TheVariants as stop;

use crate::drawing::Drawing;
use crate::head::{Head, sum_with};
use crate::items::Items;
use crate::opcodes::{BOC, BOC1};
use crate::preamble::after_preamble;
use crate::{GfFont, GfStop};
use std::alloc::{AllocError as NoMemory, Global};

impl GfFont {
    /// Reads the glyphs of a GF file, or tells its first fault. What stands after the closing
    /// command 248 isn't looked at.
    ///
    /// Want of memory apart, the font comes exactly where the bytes are a GF file, and a fault
    /// exactly where it is their first.
    pub fn read(alloc: Global, bytes: &[u8]) -> Result<GfFont, GfStop>
        ensures glyphs { IfOk result (λ font. (characters : List Character)
            × IsGfFile bytes.now characters × HasGlyphsOf characters font) }
        ensures fault { IfErr result (λ stop. IfFault stop (IsFirstFault bytes.now)) }
        ensures accepted { (characters : List Character) → IsGfFile bytes.now characters
            → IfErr result (λ e. e ≡ stop.NoMemory) }
        ensures refused { (f : GfFault) → IsFirstFault bytes.now f
            → MatchResult result (λ _. ⊥) (λ stop. IfFault stop (λ g. g ≡ f)) }
    {
        GfFont::of_items(alloc, bytes)
    }

    // The same with the answers alone: that no other could come follows by the laws.
    fn of_items(alloc: Global, bytes: &[u8]) -> Result<GfFont, GfStop>
        ensures glyphs { IfOk result (λ font. (characters : List Character)
            × IsGfFile bytes.now characters × HasGlyphsOf characters font) }
        ensures fault { IfErr result (λ stop. IfFault stop (IsFirstFault bytes.now)) }
    {
        let mut items = Items::new(after_preamble(bytes)?);
        let mut font = GfFont::empty(alloc)?;
        let mut sum = 0;
        'characters: while let Some(item) = items.next(false)? {
            if let Some(mut drawing) = begin_character(alloc, item, &mut sum)? {
                drawing.commands(&mut items)?;
                font.keep(drawing)?;
            }
        }
        Ok(font)
    }

    // Keeps the glyph of a character that has ended, where a code that is asked for can be its own.
    fn keep(&mut self, drawing: Drawing) -> Result<(), NoMemory>
        requires narrow { drawing.bits.width ≤ MAX_GLYPH_SIDE }
        requires low { drawing.bits.height ≤ MAX_GLYPH_SIDE }
        requires shaped { IsShaped drawing.bits }
        ensures { OnOk result ((k : ℕ) → glyph_of self.new k ≡
            (if int_eq drawing.code (pos k)
            then Some (record { raster = drawing.bits; hoff = drawing.hoff; voff = drawing.voff })
            else glyph_of self.old k)) }
    {
        if drawing.code >= 0 {
            let code = drawing.code as u32;
            self.put(code, drawing.finish())?;
        }
        Ok(())
    }
}

// An item between characters: the beginning of one, after others whose rasters take `sum` bytes, or
// one that is passed over.
fn begin_character(alloc: Global, item: &[u8], sum: &mut u32) -> Result<Option<Drawing>, GfStop>
    requires item { IsItem false item.now }
    requires few { sum.old ≤ MAX_RASTER_BYTES }
    ensures few { sum.new ≤ MAX_RASTER_BYTES }
    ensures begun { (before : List (List ℕ)) (font : Glyphs) → sum.old ≡ raster_sum before →
        IsRead before font None →
        MatchResult result
        (λ drawn. (fault_of_item before item.now ≡ None) × IsRead (item.now ∷ before) font drawn
        × (sum.new ≡ raster_sum (item.now ∷ before)))
        (λ stop. IfFault stop (λ f. fault_of_item before item.now ≡ Some f)) }
{
    if item[0] != BOC && item[0] != BOC1 {
        return Ok(None);
    }
    let head = Head::of(item);
    let sides = head.sides()?;
    *sum = sum_with(&sides, *sum)?;
    Ok(Some(Drawing::new(alloc, &head, sides)?))
}
