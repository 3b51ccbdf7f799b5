//! A font whose files were read.
ghost use Rattle.std.specs.Prelude.{◌≡◌, ◌≤◌, ◌<◌, ◌^◌, ℕ, pos, length, unsigned_abs, IfOk, IfSome, IsSome, MatchOption, None, Some};
ghost use Rattle.std.specs.Arc.{arc_value};
ghost use Rattle.outside.specs.FontKeys.{IsFontKey};
ghost use Rattle.outside.specs.Limits.{SIZES};
ghost use Rattle.font_decode.specs.FontWeights.{font_weight, shapes_weight};
ghost use Rattle.font_decode.specs.Fonts.{AreShapes, AreWidths, IsProgram, first_local_of, glyph_at, is_virtual_of, local_of, packet_of, scaled_width_of};

use crate::shapes::Shapes;
use outside::FontKey;
use pk_runs::Glyph;
use std::alloc::{AllocError as NoMemory, Global};
use std::marker::Model;
use std::sync::Arc;

// What the shares of a font have in common.
#[derive(Drop)]
struct Tables {
    widths: Vec<Option<i64>>,
    shapes: Shapes,
}

/// A font at a size: its widths, and its glyphs in dots, of which a bare font has none, or, of a
/// virtual font, its packets of commands and its local fonts. A contract sees it as its size, the
/// widths of the codes from 0 on, and what its characters are; `scaled_width_of`, `glyph_at` and
/// `packet_of` say which ones a code has, and `local_of` which font a number.
#[derive(Drop)]
pub struct Font {
    size: u32,
    weight: u64,
    tables: Arc<Tables>,
}

impl Model for Font {
    ghost use Rattle.std.specs.Arc.{arc_value};
    ghost use Rattle.font_decode.specs.Fonts.{FontValue};
    ghost use Rattle.font_decode.specs.FontWeights.{IsWeighedFont};

    ghost Value = { FontValue };

    ghost view = { λ f. record {
      size = f.size;
      widths = (arc_value f.tables).widths.items;
      shapes = (arc_value f.tables).shapes;
    } };

    ghost invariant = { λ f. IsWeighedFont
        (record {
          size = f.size;
          widths = (arc_value f.tables).widths.items;
          shapes = (arc_value f.tables).shapes;
        }) f.weight };
}

impl Font {
    // A font of this size, with these widths and characters, which weigh so many bytes.
    pub(crate) fn new(
        alloc: Global,
        size: u32,
        widths: Vec<Option<i64>>,
        shapes: Shapes,
        weight: u64,
    ) -> Result<Font, NoMemory>
        requires some { 1 ≤ size }
        requires fits { size < SIZES }
        requires codes { length widths.items ≤ 256 }
        requires widths { AreWidths widths.items }
        requires shapes { AreShapes shapes }
        requires weight { weight ≡ shapes_weight shapes }
        ensures { IfOk result (λ font.
            font ≡ record { size = size; widths = widths.items; shapes = shapes }) }
    {
        let tables = Arc::new(alloc, Tables { widths, shapes })?;
        Ok(Font {
            size,
            weight,
            tables,
        })
    }

    /// The same font again. The two have their widths and characters in common, which lie in memory
    /// until the last of them is dropped. `NoMemory` comes where no more shares can be counted.
    pub fn share(&self) -> Result<Font, NoMemory>
        ensures { IfOk result (λ font. font ≡ self.now) }
    {
        Ok(Font {
            size: self.size,
            weight: self.weight,
            tables: Arc::try_clone(&self.tables)?,
        })
    }

    /// The width of a character, in DVI units: its width by the TFM file, scaled to the font's size
    /// and rounded down (Knuth, DVItype, "Reading the font information"). `None` for every code
    /// without a character.
    #[inline(always)]
    pub fn width(&self, c: i32) -> Option<i64>
        ensures width { result ≡ scaled_width_of self.now c }
        ensures number { IfSome result (λ w. unsigned_abs w ≤ 2 ^ 31) }
        ensures byte { IfSome result (λ _. (n : ℕ) × (c ≡ pos n) × (n < 256)) }
    {
        let code = usize::try_from(c).ok()?;
        *self.tables.widths.get(code)?
    }

    /// Whether the font is a virtual one, whose characters are packets of commands (Knuth, VFtoVP,
    /// "Virtual fonts"). Every other font is a packed one, whose characters are glyphs.
    #[inline(always)]
    pub fn is_virtual(&self) -> bool
        ensures { result ≡ is_virtual_of self.now }
    {
        match &self.tables.shapes {
            Shapes::Packed(_) | Shapes::Generic(_) | Shapes::Bare => false,
            Shapes::Virtual { .. } => true,
        }
    }

    /// The glyph of a character: that of the last packet of the PK file, or of the last character
    /// of the GF file, with its code. `None` where none has the code, and in a bare or a virtual
    /// font.
    #[inline(always)]
    pub fn glyph(&self, c: u32) -> Option<&Glyph>
        ensures { MatchOption result (glyph_at self.now c ≡ None)
            (λ g. glyph_at self.now c ≡ Some g.now) }
    {
        match &self.tables.shapes {
            Shapes::Packed(glyphs) => glyphs.glyph(c),
            Shapes::Generic(glyphs) => glyphs.glyph(c),
            Shapes::Bare | Shapes::Virtual { .. } => None,
        }
    }

    /// The commands of a character of a virtual font: the bytes of the last packet with its code.
    /// They are whole commands, each of which may stand in a packet; their dimensions are fix_words
    /// from -2^24 to 2^24 - 1, and each push has its pop. `None` where no packet has the code, and
    /// in a packed font.
    pub fn packet(&self, c: u32) -> Option<&[u8]>
        ensures packet { MatchOption result (packet_of self.now c ≡ None)
            (λ packet. packet_of self.now c ≡ Some packet.now) }
        ensures commands { IfSome result (λ packet. IsProgram c packet.now) }
    {
        match &self.tables.shapes {
            Shapes::Packed(_) | Shapes::Generic(_) | Shapes::Bare => None,
            Shapes::Virtual { file, .. } => file.packet(c),
        }
    }

    /// The key of the local font with a number. Both of its sizes are above 0 and below 2^27 DVI
    /// units. `None` where the VF file doesn't define the number, and in a packed font.
    pub fn local(&self, k: i32) -> Option<&Arc<FontKey>>
        ensures key { MatchOption result (local_of self.now k ≡ None)
            (λ key. local_of self.now k ≡ Some (arc_value key.now)) }
        ensures fits { IfSome result (λ key. IsFontKey (arc_value key.now)) }
    {
        match &self.tables.shapes {
            Shapes::Packed(_) | Shapes::Generic(_) | Shapes::Bare => None,
            Shapes::Virtual { keys, .. } => keys.get(k),
        }
    }

    /// The number of the first local font of the VF file, which is current where a packet begins.
    /// `None` where the file defines no local font, and in a packed font.
    pub fn first_local(&self) -> Option<i32>
        ensures number { result ≡ first_local_of self.now }
        ensures there { IfSome result (λ k. IsSome (local_of self.now k)) }
    {
        match &self.tables.shapes {
            Shapes::Packed(_) | Shapes::Generic(_) | Shapes::Bare => None,
            Shapes::Virtual { file, .. } => file.first_local(),
        }
    }

    /// The bytes that the font weighs in the cache: those of its glyphs' rasters, each row in whole
    /// bytes, or of its packets, the last one of each code.
    pub fn weight(&self) -> u64
        ensures { result ≡ font_weight self.now }
    {
        self.weight
    }

    /// The size, in DVI units.
    #[inline(always)]
    pub fn size(&self) -> u32
        ensures size { result ≡ self.now.size }
        ensures fits { (1 ≤ result) × (result < SIZES) }
    {
        self.size
    }
}
