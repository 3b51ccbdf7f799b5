//! Laws over the definitions, each a clause of a function without a body.
ghost use Rattle.std.specs.Prelude.{◌≡◌, [], ◌∷◌, None, Some, codes};
ghost use Rattle.job_spool.specs.KnownInputs.{SpoolsHoldOfKnownInputs};
ghost use Rattle.job_spool.specs.Laws.{AllPairsCanBeGiven, PairsAreGiven};
ghost use Rattle.job_spool.specs.Words.{pairs_of_words, spool_numbers};

use outside::{FontSource, Input, Output};

/// What arguments give lies within its limits, and the arguments after the third are the names of
/// the pairs in their order; and all such numbers and pairs can be given.
pub fn given_pairs()
    ensures given { PairsAreGiven }
    ensures all { AllPairsCanBeGiven }
{}

/// Where the bytes that the inputs of jobs had left are known, what `spool_run` promises of the
/// bytes that reads gave holds of these, and they were read.
pub fn known_inputs<I: Input, F: FontSource, O: Output>()
    ensures { SpoolsHoldOfKnownInputs
        (record { library = F.library; faults = F.faults; loads = F.loads })
        (record {
          left = I.left;
          taken = I.taken;
          ended = I.ended;
          reads = I.faults;
          written = O.written;
          writes = O.faults;
        }) }
{}

/// What some arguments give.
#[tactic(auto, unfolding(crate::specs::Words::spool_numbers, crate::specs::Words::pairs_of_words))]
pub fn worked_words()
    ensures two { spool_numbers (codes "300" ∷ codes "1" ∷ codes "3" ∷ codes "a" ∷ codes "b"
        ∷ codes "c" ∷ codes "d" ∷ []) ≡ Some (record { res = 300; workers = 1; cache = 3 }) }
    ensures pairs { pairs_of_words (codes "300" ∷ codes "1" ∷ codes "3" ∷ codes "a" ∷ codes "b"
        ∷ codes "c" ∷ codes "d" ∷ []) ≡ record { source = codes "a"; target = codes "b" }
        ∷ record { source = codes "c"; target = codes "d" } ∷ [] }
    ensures zeros { spool_numbers (codes "0004800" ∷ codes "0000032" ∷ codes "0000256" ∷ codes "a"
        ∷ codes "a" ∷ []) ≡ Some (record { res = 4800; workers = 32; cache = 256 }) }
    ensures digits { spool_numbers (codes "00000300" ∷ codes "1" ∷ codes "3" ∷ codes "a"
        ∷ codes "b" ∷ []) ≡ None }
    ensures coarse { spool_numbers (codes "0" ∷ codes "1" ∷ codes "3" ∷ codes "a" ∷ codes "b" ∷ [])
        ≡ None }
    ensures fine { spool_numbers (codes "4801" ∷ codes "1" ∷ codes "3" ∷ codes "a" ∷ codes "b"
        ∷ []) ≡ None }
    ensures odd { spool_numbers (codes "300" ∷ codes "1" ∷ codes "3" ∷ codes "a" ∷ codes "b"
        ∷ codes "c" ∷ []) ≡ None }
    ensures unnamed { spool_numbers (codes "300" ∷ codes "1" ∷ codes "3" ∷ codes "a" ∷ [] ∷ [])
        ≡ None }
    ensures none { spool_numbers (codes "300" ∷ codes "1" ∷ codes "3" ∷ []) ≡ None }
{}
