//! The index of a document.
ghost use Rattle.std.specs.Prelude.{◌≡◌, ◌+◌, ◌<◌, ◌≤◌, IfSome, Some, length, slice_range};
ghost use Rattle.std.specs.Option.{option_map};
ghost use Rattle.std.specs.Arc.{arc_value};
ghost use Rattle.dvi_commands.specs.Reading.{Reads, placed_from};
ghost use Rattle.dvi_commands.specs.declared.command.Context.TheVariants as context;
ghost use Rattle.page_index.specs.Document.{font_table, pages_begun};
ghost use Rattle.outside.specs.FontKeys.{IsFontKey};
ghost use Rattle.pixel_round.specs.Preamble.{AreUnits};
ghost use Rattle.page_index.specs.Limits.{MAX_DOCUMENT_LENGTH, MAX_PAGES};
ghost use Rattle.page_index.specs.Pages.{IsConversionOf, document_units, eop_at, page_commands};

use crate::fonts::FontTable;
use crate::progress::PageSpan;
use outside::FontKey;
use pixel_round::{Conv, Units};
use std::marker::Model;
use std::sync::Arc;

/// The commands of a page: the bytes between its Bop and its Eop, and the position of the first one
/// in the document, counted from 0.
#[derive(Clone, Copy, Debug)]
pub struct PageBytes<'a> {
    pub at: usize,
    pub bytes: &'a [u8],
}

/// The pages, the fonts and the units of a document. A contract sees it as the resolution that it
/// was made for, and the document's one reading.
///
/// Knuth, DVItype, "Device-independent file format".
#[derive(Drop)]
pub struct Index<'a> {
    pub(crate) bytes: &'a [u8],
    pub(crate) units: Units,
    pub(crate) conv: Conv,
    // The position after PostPost.
    pub(crate) end: usize,
    pub(crate) pages: Vec<PageSpan>,
    pub(crate) fonts: FontTable,
}

impl<'a> Model for Index<'a> {
    ghost use Rattle.page_index.specs.Limits.{MAX_DOCUMENT_LENGTH, MAX_PAGES};
    ghost use Rattle.page_index.specs.Pages.{Indexed, reading_to};

    ghost Value = { Indexed };

    ghost view = { λ x. record { res = x.units.res; reading = reading_to x.bytes.now x.end } };

    ghost use Rattle.page_index.specs.Walked.{IsIndex};

    ghost invariant = { λ x. IsIndex x.bytes.now x.units x.conv (reading_to x.bytes.now x.end)
        x.pages.items x.fonts };
}

// The part of a document that a span names.
fn part<'a>(bytes: &'a [u8], span: PageSpan) -> PageBytes<'a>
    requires order { span.start ≤ span.end }
    requires inside { span.end ≤ length bytes.now }
    ensures at { result.at ≡ span.start }
    ensures bytes { result.bytes.now ≡ slice_range bytes.now span.start span.end }
{
    PageBytes {
        at: span.start,
        bytes: &bytes[span.start..span.end],
    }
}

impl<'a> Index<'a> {
    /// How many pages the document has: at most [`MAX_PAGES`](crate::MAX_PAGES).
    pub fn pages(&self) -> usize
        ensures count { result ≡ pages_begun self.now.reading }
        ensures few { result ≤ MAX_PAGES }
    {
        self.pages.len()
    }

    /// The commands of the page with a number, from 0, in the order of the file.
    pub fn page(&self, i: usize) -> PageBytes<'a>
        requires { i < pages_begun self.now.reading }
        ensures commands { placed_from result.at result.bytes.now
            ≡ page_commands i self.now.reading }
        ensures readable { Reads context.Page result.bytes.now }
        ensures ends { eop_at i self.now.reading ≡ Some (result.at + length result.bytes.now) }
        ensures within { result.at + length result.bytes.now ≤ MAX_DOCUMENT_LENGTH }
    {
        part(self.bytes, self.pages[i])
    }

    /// The key of the font with a number: what a definition anywhere in the document says, the
    /// postamble included. Both of its sizes are above 0 and below 2^27, and its area lies in its
    /// name.
    pub fn font(&self, k: i32) -> Option<&Arc<FontKey>>
        ensures key { option_map (λ key. arc_value key.now) result ≡ font_table self.now.reading k }
        ensures fits { IfSome result (λ key. IsFontKey (arc_value key.now)) }
    {
        self.fonts.get(k)
    }

    /// The numbers of the preamble, which are above 0, and the resolution.
    pub fn units(&self) -> Units
        ensures value { document_units self.now.res self.now.reading ≡ Some result }
        ensures fits { AreUnits result }
    {
        self.units
    }

    /// The conversion from DVI units to dots that these make.
    pub fn conv(&self) -> Conv
        ensures { IsConversionOf (document_units self.now.res self.now.reading) result }
    {
        self.conv
    }
}
