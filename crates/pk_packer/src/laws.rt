//! Laws over the definitions, each the contract of a function without a body.

ghost use Rattle.pk_packer.specs.Laws.{BarIsWritten, BarHasItsLengths, PlainBitmapsArePacked, ShapedRastersAreTheirPixels, SquareIsWritten, SquareHasItsLengths, NothingIsWritten, NumbersAreSpelled, NumbersHaveOneSpelling, RunsAreLongest};

/// What is written for two small rasters, and how many nybbles that takes by each `dyn_f`.
pub fn written_examples()
    ensures bar { BarIsWritten }
    ensures bar_lengths { BarHasItsLengths }
    ensures square { SquareIsWritten }
    ensures square_lengths { SquareHasItsLengths }
    ensures empty { NothingIsWritten }
{}

/// The runs are the longest of one colour, and a number has one spelling.
pub fn runs_written()
    ensures longest { RunsAreLongest }
    ensures spelled { NumbersAreSpelled }
    ensures one { NumbersHaveOneSpelling }
{}

/// A raster is determined by its pixels. A plain bitmap has as few bytes as its pixels take, and
/// its last bits are zero.
pub fn plain_bitmaps()
    ensures seen { ShapedRastersAreTheirPixels }
    ensures packed { PlainBitmapsArePacked }
{}
