//! Laws of TFM files.
ghost use Rattle.tfm_reader.specs.Right.{FilesAreRightOrHaveAFault, FilesHaveNoFault};
ghost use Rattle.tfm_reader.specs.Tfm.{CutFilesAreShort};

/// All bytes are a TFM file or have a first fault, and never both.
pub fn right_files()
    ensures no_fault { FilesHaveNoFault }
    ensures either { FilesAreRightOrHaveAFault }
{}

/// A file that is read is too short where it is cut before the end of the words that its counts
/// announce.
#[tactic(auto, using(crate::proofs::Cuts::cut_files_are_short))]
pub fn cut_files()
    ensures { CutFilesAreShort }
{}
