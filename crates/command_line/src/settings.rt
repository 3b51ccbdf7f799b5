//! What a run is given besides its input and its fonts.
ghost use Rattle.std.specs.Prelude.{◌≡◌};
ghost use Rattle.page_draw.specs.Sheets.{IsDrawable};
ghost use Rattle.command_line.specs.Settings.{AreSettings};
ghost use Rattle.command_line.specs.Settings.{default_settings as the_default_settings};
ghost use Rattle.command_line.specs.Settings.{default_sheet as the_default_sheet};

use page_draw::Sheet;

/// The most bytes that the fonts in a cache may weigh together: 256 of the greatest weight.
pub const MAX_ROOM: u64 = 2_147_483_648;

/// What a run is given besides its input and its fonts.
#[derive(Clone, Copy, Debug, PartialEq, Eq)]
pub struct Settings {
    /// Dots to the inch: 1 to 4800.
    pub res: u32,
    /// The sheet that each page is drawn on, in dots: sides of 1 to 20,000, margins of 0 to 20,000.
    /// A tolerant one takes pages that lack a font, a character, a glyph or a packet, and what they
    /// lack is printed to the notes.
    pub sheet: Sheet,
    /// How many pages are drawn at a time: 1 to 32, and at most as many as there are workers.
    pub workers: u32,
    /// How many fonts are kept: 1 to 256.
    pub cache: u32,
    /// How many bytes the fonts that are kept may weigh together: 0 to 2,147,483,648.
    pub room: u64,
    /// How many pages of the sample are drawn in place of the input's: 1 to 1000. `None` draws the
    /// input's.
    pub sample: Option<u32>,
    /// Whether the glyphs of the sample's fonts are packed; only with `sample`.
    pub packed: bool,
    /// Whether each call of the cache is printed to the notes.
    pub trace: bool,
    /// Whether the counts of the run are printed to the notes.
    pub summary: bool,
}

/// 8.5 by 11 inches at 300 dots to the inch, with margins of one inch, and not tolerant.
#[tactic(auto, unfolding(crate::specs::Settings::default_sheet))]
pub fn default_sheet() -> Sheet
    ensures value { result ≡ the_default_sheet }
    ensures drawable { IsDrawable result }
{
    Sheet {
        width: 2550,
        height: 3300,
        left: 300,
        top: 300,
        tolerant: false,
    }
}

/// The settings of a run without arguments: 300 dots to the inch, the sheet of `default_sheet`, one
/// worker, 16 fonts kept, whatever they weigh, the input's pages, and nothing printed but the line
/// of a run that is refused.
#[tactic(auto, unfolding(crate::specs::Settings::default_settings))]
pub fn default_settings() -> Settings
    ensures value { result ≡ the_default_settings }
    ensures allowed { AreSettings result }
{
    Settings {
        res: 300,
        sheet: default_sheet(),
        workers: 1,
        cache: 16,
        room: MAX_ROOM,
        sample: None,
        packed: false,
        trace: false,
        summary: false,
    }
}
