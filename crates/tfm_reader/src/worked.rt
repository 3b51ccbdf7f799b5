//! A worked file and what is wrong with changed ones, by computation.
ghost use Rattle.std.specs.Prelude.{◌≡◌, None, Some, pos, negsuc, slice_set, take};
ghost use Rattle.tfm_reader.specs.Worked.{dot};
ghost use Rattle.tfm_reader.specs.Tfm.{tfm_fault, tfm_width};
ghost use Rattle.tfm_reader.specs.declared.faults.TfmFault.TheVariants.{Counts, Short, WidthByte, WidthIndex, WidthZero};

/// The code 65 alone, 1/16 of the size wide.
pub fn widths_of_a_dot()
    ensures right { tfm_fault dot ≡ None }
    ensures there { tfm_width dot (pos 65) ≡ Some (pos 65536) }
    ensures above { tfm_width dot (pos 66) ≡ None }
    ensures below { tfm_width dot (negsuc 0) ≡ None }
{}

/// The same file with one byte changed, or with the last one cut.
pub fn faults_of_changed_dots()
    ensures words { tfm_fault (slice_set dot 1 15) ≡ Some Counts }
    ensures cut { tfm_fault (take 55 dot) ≡ Some Short }
    ensures index { tfm_fault (slice_set dot 32 2) ≡ Some (WidthIndex 65) }
    ensures zero { tfm_fault (slice_set dot 39 1) ≡ Some WidthZero }
    ensures byte { tfm_fault (slice_set dot 40 1) ≡ Some (WidthByte 1) }
{}
