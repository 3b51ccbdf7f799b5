//! Laws of scaling.
ghost use Rattle.fix_word.specs.Scale.{HalfUpIsNearest, NestedDivisionsScale, ShiftIsLeast};

/// As few bits are left out as leave 23. DVItype's nested divisions of a fix_word's four bytes,
/// with its alpha and beta, give the same as the one division here, rounded down. `half_up` is the
/// nearest whole number.
pub fn scaling()
    ensures shift { ShiftIsLeast }
    ensures nested_divisions { NestedDivisionsScale }
    ensures half_up { HalfUpIsNearest }
{}
