//! Laws of the names of a font's files, and of what is found.
ghost use Rattle.font_decode.specs.Weights.{AlikeWeighTheSame, EachKeyHasAWeight, OneWeightInALibrary};
ghost use Rattle.font_decode.specs.Laws.{NamesStayInFolder, AskedNamesStayInFolder, NamesAreDistinct, OneIsFound, FewAreLookedFor, OneOfItsFiles, OneInALibrary, EachKeyIsDecoded, RowsDetermineTheDecoding, PacketsAreBalanced};

/// No name of a font's files leads out of the folder, so none that is asked for does, whatever the
/// key; and no two of them are the same.
pub fn names()
    ensures folder { NamesStayInFolder }
    ensures asked { AskedNamesStayInFolder }
    ensures distinct { NamesAreDistinct }
{}

/// A library has one answer to a key, which is known after at most eight names.
pub fn answers()
    ensures one { OneIsFound }
    ensures few { FewAreLookedFor }
{}

/// Files come to one font or have one first fault, and so does a key in a library: two decodings
/// are the same fault, or fonts that answer alike. One list of rows, in the order in which a font's
/// name and files are judged, determines which: the fault of the first row that holds, or the bare
/// font where that row is that of files of glyphs which are missing; and else the font.
pub fn decodings()
    ensures files { OneOfItsFiles }
    ensures library { OneInALibrary }
    ensures each { EachKeyIsDecoded }
    ensures rows { RowsDetermineTheDecoding }
{}

/// Decodings that can't be told apart weigh the same. So a key has one weight in a library, and
/// each key has one.
pub fn weights()
    ensures alike { AlikeWeighTheSame }
    ensures one { OneWeightInALibrary }
    ensures each { EachKeyHasAWeight }
{}

/// The packets of a virtual font push and pop in balance, whatever its files: none pops what it
/// didn't push, and none leaves a push open.
pub fn packets()
    ensures balanced { PacketsAreBalanced }
{}
