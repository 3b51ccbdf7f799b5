//! Laws over the definitions, each the contract of a function without a body.

ghost use Rattle.pk_runs.specs.Huge.{HugeRepeatsAreTooManyRows, HugeRunsOverrun};
ghost use Rattle.pk_runs.specs.Numbers.{NoNumberBeginsAnother, NoItemBeginsAnother, NumbersHaveNoGreatest};
ghost use Rattle.pk_runs.specs.Raster.{RunRastersAreOne, RunRastersHaveTheirSize, RastersAreOne, RunRastersAreNeverStuck, RastersHaveNoFault, RunFaultsAreOne, BytesHaveARasterOrAFault};

/// No run length begins another, nor does a repeat count, and no number is the greatest. Bytes
/// stand for at most one raster, and one of runs has the size that is asked for.
pub fn runs_apart()
    ensures numbers { NoNumberBeginsAnother }
    ensures items { NoItemBeginsAnother }
    ensures no_greatest { NumbersHaveNoGreatest }
    ensures one { RunRastersAreOne }
    ensures size { RunRastersHaveTheirSize }
    ensures one_raster { RastersAreOne }
{}

/// Bytes that stand for a raster have no fault, and bytes have at most one fault.
pub fn one_fault()
    ensures never_stuck { RunRastersAreNeverStuck }
    ensures no_fault { RastersHaveNoFault }
    ensures one { RunFaultsAreOne }
    ensures either { BytesHaveARasterOrAFault }
{}

/// A number that no integer of 32 bits holds is refused as itself, whatever was read before it: a
/// run length is then `Overrun`, and a repeat count `TooManyRows`, unless its row has another one.
pub fn huge_numbers()
    ensures runs { HugeRunsOverrun }
    ensures repeats { HugeRepeatsAreTooManyRows }
{}
