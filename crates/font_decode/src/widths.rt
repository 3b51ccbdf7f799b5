//! Widths at a size.
ghost use Rattle.std.specs.Prelude.{◌≡◌, ◌≤◌, ◌<◌, ℕ, ℤ, List, length, pos, IfOk, IfSome};
ghost use Rattle.std.specs.Option.{option_map};
ghost use Rattle.fix_word.specs.Scale.{scale};
ghost use Rattle.tfm_reader.specs.Tfm.{width_of};
ghost use Rattle.outside.specs.Limits.{SIZES};
ghost use Rattle.font_decode.specs.Decoding.{scaled_width};
ghost use Rattle.font_decode.specs.Fonts.{IsWidth, AreWidths};
ghost use Rattle.font_decode.specs.Reading.{IsTfmOf};

use fix_word::scale;
use std::alloc::{AllocError as NoMemory, Global};
use tfm_reader::Tfm;

// How many codes may have a character.
const CODES: u16 = 256;

// The width of a code at a size.
fn width_at(tfm: &Tfm, code: u16, size: u32) -> Option<i64>
    requires some { 1 ≤ size }
    requires fits { size < SIZES }
    ensures width { result ≡ option_map (λ w. scale w size) (width_of tfm.now (pos code)) }
    ensures fits { IfSome result IsWidth }
{
    let width = tfm.width(i32::from(code))?;
    Some(scale(width, size))
}

/// The widths of the codes from 0 on, at a size in DVI units, by a TFM file that was read.
pub fn scaled_widths(alloc: Global, tfm: &Tfm, size: u32) -> Result<Vec<Option<i64>>, NoMemory>
    requires some { 1 ≤ size }
    requires fits { size < SIZES }
    ensures widths { IfOk result (λ widths. (bytes : List ℕ) → IsTfmOf bytes tfm.now →
        (c : ℤ) → width_of widths.items c ≡ scaled_width size bytes c) }
    ensures fit { IfOk result (λ widths. AreWidths widths.items) }
    ensures codes { IfOk result (λ widths. length widths.items ≤ 256) }
{
    let mut widths = Vec::with_capacity(alloc, usize::from(CODES))?;
    for code in 0..CODES {
        widths.push(width_at(tfm, code, size))?;
    }
    Ok(widths)
}
