//! Reading a PK file.
ghost use Rattle.std.specs.Prelude.{◌≡◌, ◌≤◌, ◌+◌, ℕ, List, ◌∷◌, IfErr, IfOk, IsTrue, MatchResult};
ghost use Rattle.pk_runs.specs.Limits.{MAX_RASTER_BYTES};
ghost use Rattle.pk_packets.specs.Faults.{IsFirstFault, IsPacketFault};
ghost use Rattle.pk_packets.specs.Fonts.{HasGlyphsOf, IsPacketSound, IsPkFile};
ghost use Rattle.pk_packets.specs.Items.{IsItem, is_packet};
ghost use Rattle.pk_packets.specs.Packets.{raster_size, raster_sum};
ghost use Rattle.pk_packets.specs.Stops.{IfFault};
ghost use Rattle.pk_packets.specs.declared.faults.PkFault.{PkFault};
ghost use Rattle.pk_packets.specs.declared.faults.PkStop.TheVariants as stop;

use crate::glyph::{glyph, sum_with};
use crate::items::Items;
use crate::opcodes::SPECIAL;
use crate::packet::Packet;
use crate::preamble::after_preamble;
use crate::{PkFont, PkStop};
use std::alloc::Global;

impl PkFont {
    /// Reads the glyphs of a PK file, or answers its first fault. What follows the closing command
    /// 245 isn't looked at.
    ///
    /// Unless memory runs out, the font comes exactly where the bytes are a PK file, and a fault
    /// exactly where it is their first.
    pub fn read(alloc: Global, bytes: &[u8]) -> Result<PkFont, PkStop>
        ensures glyphs { IfOk result (λ font. (items : List (List ℕ)) × IsPkFile bytes.now items
            × HasGlyphsOf items font) }
        ensures fault { IfErr result (λ stop. IfFault stop (IsFirstFault bytes.now)) }
        ensures accepted { (items : List (List ℕ)) → IsPkFile bytes.now items
            → IfErr result (λ e. e ≡ stop.NoMemory) }
        ensures refused { (f : PkFault) → IsFirstFault bytes.now f
            → MatchResult result (λ _. ⊥) (λ stop. IfFault stop (λ g. g ≡ f)) }
    {
        PkFont::of_items(alloc, bytes)
    }

    // The same with the answers alone: that no other could come follows by the laws.
    fn of_items(alloc: Global, bytes: &[u8]) -> Result<PkFont, PkStop>
        ensures glyphs { IfOk result (λ font. (items : List (List ℕ)) × IsPkFile bytes.now items
            × HasGlyphsOf items font) }
        ensures fault { IfErr result (λ stop. IfFault stop (IsFirstFault bytes.now)) }
    {
        let mut items = Items::new(after_preamble(bytes)?);
        let mut font = PkFont::empty(alloc)?;
        let mut sum = 0;
        while let Some(item) = items.next()? {
            if item[0] < SPECIAL {
                sum = font.add(alloc, item, sum)?;
            }
        }
        Ok(font)
    }

    // Judges a packet after others whose rasters take `sum` bytes, and keeps its glyph. Gives the
    // sum with its raster.
    fn add(&mut self, alloc: Global, bytes: &[u8], sum: u32) -> Result<u32, PkStop>
        requires item { IsItem bytes.now }
        requires packet { IsTrue (is_packet bytes.now) }
        requires few { sum ≤ MAX_RASTER_BYTES }
        ensures few { IfOk result (λ sum. sum ≤ MAX_RASTER_BYTES) }
        ensures sum { IfOk result (λ after. after ≡ sum + raster_size bytes.now) }
        ensures added { (before : List (List ℕ)) → sum ≡ raster_sum before
            → HasGlyphsOf before self.old →
            MatchResult result
            (λ sum. (sum ≡ raster_sum (bytes.now ∷ before)) × IsPacketSound before bytes.now
            × HasGlyphsOf (bytes.now ∷ before) self.new)
            (λ stop. IfFault stop (IsPacketFault before bytes.now)) }
    {
        let packet = Packet::of(bytes)?;
        let sum = sum_with(&packet, sum)?;
        let glyph = glyph(alloc, &packet)?;
        self.put(packet.code, glyph)?;
        Ok(sum)
    }
}
