//! Worked values at one half of a dot for a unit, by computation.

ghost use Rattle.std.specs.Prelude.{◌≡◌, pos, negsuc};
ghost use Rattle.pixel_round.specs.Pixels.{round, ceil, conversion};
ghost use Rattle.pixel_round.specs.Examples.{units, half};

/// With num 1270, den 3, mag 1000 and 300 dots to the inch a unit is one half of a dot.
pub fn half_a_dot()
    ensures is { conversion units ≡ record { top = 381000000; bottom = 762000000 } }
{}

/// Halves go away from zero, and a rule's side up.
pub fn rounded()
    ensures one { round half (pos 1) ≡ pos 1 }
    ensures minus_one { round half (negsuc 0) ≡ negsuc 0 }
    ensures three { round half (pos 3) ≡ pos 2 }
    ensures ceil_three { ceil half (pos 3) ≡ pos 2 }
    ensures ceil_minus_three { ceil half (negsuc 2) ≡ negsuc 0 }
    ensures ceil_nothing { ceil half (pos 0) ≡ pos 0 }
{}
