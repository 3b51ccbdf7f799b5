//! Laws of VF files, each the contract of a function without a body.
ghost use Rattle.vf_reader.specs.Balance.{PacketsAreBalanced};
ghost use Rattle.vf_reader.specs.Laws.{CutFilesAreShort, EmptyFileIsShort, FilesAreReadOneWay, FilesAreReadOrHaveAFault, FilesHaveNoFault, FirstFaultsAreOne, NoItemBeginsAnother};

/// No item begins another. So a file has one list of items, a file that is read has no fault, and
/// bytes have at most one first fault. All bytes are a VF file or have a first fault.
pub fn one_meaning()
    ensures items { NoItemBeginsAnother }
    ensures one_list { FilesAreReadOneWay }
    ensures no_fault { FilesHaveNoFault }
    ensures one_fault { FirstFaultsAreOne }
    ensures either { FilesAreReadOrHaveAFault }
{}

/// A file that is read is too short at each cut before its closing command, and the empty file is
/// too short.
pub fn cut_files()
    ensures cut { CutFilesAreShort }
    ensures empty { EmptyFileIsShort }
{}

/// In each packet of a file that is read, every pop has its push before it, and every push its pop.
pub fn packets()
    ensures balanced { PacketsAreBalanced }
{}
