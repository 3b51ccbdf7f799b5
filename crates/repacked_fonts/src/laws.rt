//! Each law is the contract of a function without a body.

ghost use Rattle.repacked_fonts.specs.Laws.{RepackedFontsAreDecodedAlike, RepackedPagesAreTheSame, RepackedRunsAreTheSame, SampleFontsAreDecodedAlike, SamplePagesAreTheSame, SampleRunsAreTheSame, SampleRunsStopAlike, SampleRunsWriteAlike, SamplesDifferInPacking};

use dvi_run::laws::runs;

/// How the rasters of PK files are packed changes no font and no page: over two libraries that
/// differ only so, a key has the same decodings, a page the same value and look-ups, and a document
/// the same values of its pages.
pub fn repacked()
    ensures fonts { RepackedFontsAreDecodedAlike }
    ensures pages { RepackedPagesAreTheSame }
    ensures runs { RepackedRunsAreTheSame }
{}

/// The libraries of the two samples differ only so. A font of the packed sample is decoded as that
/// of the plain one, and any page has a value over the one exactly where it has it over the other.
/// A run of the packed sample and one of the plain, with the same resolution and sheet, write one
/// text where both end well, and where both end at a page, which is then the same.
pub fn samples()
    ensures packing { SamplesDifferInPacking }
    ensures fonts { SampleFontsAreDecodedAlike }
    ensures pages { SamplePagesAreTheSame }
    ensures runs { SampleRunsAreTheSame }
    ensures good { SampleRunsWriteAlike }
    ensures stopped { SampleRunsStopAlike }
{
    runs();
}
