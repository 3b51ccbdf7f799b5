//! Laws of the sample and of made PK files, each the contract of a function without a body.
ghost use Rattle.sample_maker.specs.Coded.{ChosenRastersArePacked, PackedRastersAreShortest};
ghost use Rattle.sample_maker.specs.PkFile.{FilesAreMultiplesOfFour, PacketsHaveTheFirstForm};
ghost use Rattle.sample_maker.specs.Sample.{FilesAreTheSix, GlyphsAreRead, MetricsAreRead, PackedGlyphsAreRead, SamplesAreDocuments, SamplesFit, SamplesGiveBack, VirtualFontIsRead};

/// Each sample is a document, at any resolution, and not longer than a document may be; its reading
/// gives its units, pages and fonts.
pub fn samples()
    ensures documents { SamplesAreDocuments }
    ensures give_back { SamplesGiveBack }
    ensures fit { SamplesFit }
{}

/// The library has the six font files and no other. Each is what its reader reads: the widths, the
/// commands and the glyphs of the character 65, of which a PK file has no other. The PK files of
/// the packed sample give the same glyphs.
pub fn font_files()
    ensures six { FilesAreTheSix }
    ensures metrics { MetricsAreRead }
    ensures virtual_font { VirtualFontIsRead }
    ensures glyphs { GlyphsAreRead }
    ensures packed { PackedGlyphsAreRead }
{}

/// A packet has the first form that holds its numbers. A made file has a multiple of four bytes.
pub fn pk_files()
    ensures forms { PacketsHaveTheFirstForm }
    ensures words { FilesAreMultiplesOfFour }
{}

/// What `pk_packer` chooses for a raster is what stands in a packed font, and no other form has
/// fewer bytes.
pub fn packed_rasters()
    ensures chosen { ChosenRastersArePacked }
    ensures shortest { PackedRastersAreShortest }
{}
