//! Laws of PK files, each the contract of a function without a body.
ghost use Rattle.pk_packets.specs.Written.{ExtendedPacketsAreReadAgain, LongPacketsAreReadAgain, ShortPacketsAreReadAgain};
ghost use Rattle.pk_packets.specs.Laws.{AnswersAreOne, CutFilesAreShort, EmptyFileIsShort, FilesAreReadOneWay, FilesAreReadOrHaveAFault, FilesHaveNoFault, FirstFaultsAreOne, NoItemBeginsAnother, SoundItemsHaveGlyphs};

/// No item begins another. So a file has one list of items and at most one glyph for a code, a file
/// that is read has no fault, and bytes have at most one first fault.
pub fn one_meaning()
    ensures items { NoItemBeginsAnother }
    ensures one_list { FilesAreReadOneWay }
    ensures one_answer { AnswersAreOne }
    ensures no_fault { FilesHaveNoFault }
    ensures one_fault { FirstFaultsAreOne }
    ensures either { FilesAreReadOrHaveAFault }
    ensures glyphs { SoundItemsHaveGlyphs }
{}

/// A file that is read is too short at each cut before its closing command, and the empty file is
/// too short.
pub fn cut_files()
    ensures cut { CutFilesAreShort }
    ensures empty { EmptyFileIsShort }
{}

/// A packet that is written with its fields in one of the three forms is an item, and is read with
/// these fields.
pub fn packets_read_again()
    ensures short { ShortPacketsAreReadAgain }
    ensures extended { ExtendedPacketsAreReadAgain }
    ensures long { LongPacketsAreReadAgain }
{}
