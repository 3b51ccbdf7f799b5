//! Laws over the two conversions, each a clause of a function without a body.

ghost use Rattle.pixel_round.specs.Pixels.{EqualFractionsConvertAlike, OnlyOneIsRound, RoundIsNearest, CeilIsLeast, ConvertedAreBounded, SidesHaveDots};

/// One conversion gives the nearest number, and of two such numbers the one farther from zero,
/// which determines it; the other gives the least number that isn't below. Where a unit is at most
/// 512 dots, both are of a bounded size; a side above zero has a dot. Fractions of one value
/// convert alike.
#[tactic(auto, using(crate::proofs::Conversion::round_is_nearest))]
pub fn conversions()
    ensures nearest { RoundIsNearest }
    ensures only_one { OnlyOneIsRound }
    ensures least { CeilIsLeast }
    ensures bounded { ConvertedAreBounded }
    ensures has_a_dot { SidesHaveDots }
    ensures alike { EqualFractionsConvertAlike }
{}
