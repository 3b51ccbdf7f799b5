//! Laws of sums over codes, each a clause of a function without a body.
ghost use Rattle.code_sums.specs.Laws.{EqualTermsHaveOneSum, OneTermChanges, TermsAreInTheSum, SumsAreBounded};

/// Equal terms have one sum. Where the term of one code changes, the sum changes by as much. No
/// term is greater than the sum, and where no term is greater than a number, the sum is at most
/// that number times 2^32.
pub fn sums()
    ensures same { EqualTermsHaveOneSum }
    ensures changed { OneTermChanges }
    ensures each { TermsAreInTheSum }
    ensures bound { SumsAreBounded }
{}
