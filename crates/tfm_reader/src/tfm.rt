//! A TFM file that was read.
ghost use Rattle.std.specs.Prelude.{◌≡◌, ℤ, IfErr, IfOk, IfSome, None, OnOk};
ghost use Rattle.fix_word.specs.FixWords.{IsFixWord};
ghost use Rattle.tfm_reader.specs.Fits.{AreFixWords};
ghost use Rattle.tfm_reader.specs.Stops.{IsStopFor};
ghost use Rattle.tfm_reader.specs.Tfm.{tables_fault, tfm_fault, tfm_width, width_of};
ghost use Rattle.tfm_reader.specs.Layout.{IsLayoutOf};

use crate::TfmStop;
use crate::layout::{Layout, places};
use crate::tables::{judge_tables, width};
use std::alloc::{AllocError as NoMemory, Global};
use std::marker::Model;

/// The widths of a font's characters. A contract sees it as a list of the widths of the codes from
/// 0 on.
#[derive(Debug, Drop)]
pub struct Tfm {
    widths: Vec<Option<i32>>,
}

impl Model for Tfm {
    ghost use Rattle.std.specs.Prelude.{List, Option, ℤ};
    ghost use Rattle.tfm_reader.specs.Fits.{AreFixWords};

    ghost Value = { List (Option ℤ) };

    ghost view = { λ t. t.widths.items };

    ghost invariant = { λ t. AreFixWords t.widths.items };
}

// The widths of the codes from 0 to 255.
fn table(alloc: Global, bytes: &[u8], layout: &Layout) -> Result<Vec<Option<i32>>, NoMemory>
    requires places { IsLayoutOf layout.now bytes.now }
    requires right { tables_fault bytes.now ≡ None }
    ensures widths { IfOk result (λ widths. (c : ℤ) → width_of widths.items c
        ≡ tfm_width bytes.now c) }
    ensures fit { IfOk result (λ widths. AreFixWords widths.items) }
{
    let mut widths = Vec::with_capacity(alloc, 256)?;
    for code in 0..256 {
        widths.push(width(bytes, layout, code))?;
    }
    Ok(widths)
}

impl Tfm {
    /// Reads the widths of a file, or answers the first thing that is wrong with it. What follows
    /// the words that the counts announce is ignored.
    pub fn read(alloc: Global, bytes: &[u8]) -> Result<Tfm, TfmStop>
        ensures right { OnOk result (tfm_fault bytes.now ≡ None) }
        ensures widths { IfOk result (λ tfm. (c : ℤ) → width_of tfm c ≡ tfm_width bytes.now c) }
        ensures stop { IfErr result (λ stop. IsStopFor stop bytes.now) }
    {
        let layout = places(bytes)?;
        judge_tables(bytes, &layout)?;
        Ok(Tfm {
            widths: table(alloc, bytes, &layout)?,
        })
    }

    /// The width of a code, a fix_word, so between -16 and 16 in units of 2^-20. `None` for every
    /// code without a character.
    pub fn width(&self, c: i32) -> Option<i32>
        ensures width { result ≡ width_of self.now c }
        ensures fits { IfSome result IsFixWord }
    {
        let code = usize::try_from(c).ok()?;
        *self.widths.get(code)?
    }
}
