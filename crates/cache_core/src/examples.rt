//! Histories, checked by computation.

ghost use Rattle.std.specs.Prelude.{◌≡◌, IsFalse, is_some, [], ◌∷◌};
ghost use Rattle.cache_core.specs.Machine.{Legal, machine_after, empty};
ghost use Rattle.cache_core.specs.Histories.{SeatCalls, own};
ghost use Rattle.cache_core.specs.Examples.{limits, duo, dot, bar, history_of_one, history_of_three, asked, bar_leaves, dot_leaves, second_is_busy, second_claims, own_is_busy};
ghost use Rattle.cache_core.specs.Examples.{history_of_six, history_of_room_three, budget_left_out, history_of_none, history_of_nine, other_order, more_than_needed};

/// The page's looks with a cache of one font, where every look claims, and of three, where the
/// second looks hit.
pub fn histories()
    ensures of_one { Legal (limits 1 9) history_of_one }
    ensures of_three { Legal (limits 3 9) history_of_three }
    ensures not_of_two { IsFalse (is_some (machine_after (limits 2 9) empty history_of_one)) }
    ensures one_seat { own 1 history_of_one ≡ history_of_one }
{}

/// The page's looks with three fonts and a budget: of six, where one font leaves for another, and
/// of three, where one isn't kept.
pub fn budgets()
    ensures of_six { Legal (limits 3 6) history_of_six }
    ensures of_room_three { Legal (limits 3 3) history_of_room_three }
    ensures none_left_out { IsFalse (is_some (machine_after (limits 3 6) empty budget_left_out)) }
    ensures nine_is_enough { Legal (limits 3 9) budget_left_out }
{}

/// With a budget of nothing a font that weighs nothing is kept, and no other.
pub fn no_budget()
    ensures of_none { Legal (limits 3 0) history_of_none }
    ensures none_kept { IsFalse (is_some (machine_after (limits 3 0) empty history_of_six)) }
{}

/// One font may drive several out: as many as have to go, and the least recently used first.
pub fn several_leave()
    ensures three { Legal (limits 4 9) history_of_nine }
    ensures oldest_first { IsFalse (is_some (machine_after (limits 4 9) empty other_order)) }
    ensures two_for_four { Legal (limits 4 9) (more_than_needed 4 (duo ∷ dot ∷ [])) }
    ensures not_three { IsFalse (is_some (machine_after (limits 4 9) empty
        (more_than_needed 4 (duo ∷ dot ∷ bar ∷ [])))) }
    ensures not_one { IsFalse (is_some (machine_after (limits 4 9) empty
        (more_than_needed 4 (duo ∷ [])))) }
    ensures one_for_three { Legal (limits 4 9) (more_than_needed 3 (duo ∷ [])) }
{}

/// Each look of the page is answered, in both.
#[tactic(auto, using(crate::proofs::Answered::answered_by_one, crate::proofs::Answered::answered_by_three))]
pub fn answers()
    ensures of_one { SeatCalls asked history_of_one }
    ensures of_three { SeatCalls asked history_of_three }
{}

/// A hit moves its key to the front, so another key is evicted.
pub fn order_of_use()
    ensures oldest_leaves { Legal (limits 2 9) bar_leaves }
    ensures hit_stays { IsFalse (is_some (machine_after (limits 2 9) empty dot_leaves)) }
{}

/// While the claim is open, another seat is answered Busy.
pub fn seats()
    ensures busy { Legal (limits 1 9) second_is_busy }
    ensures no_second_claim { IsFalse (is_some (machine_after (limits 1 9) empty second_claims)) }
    ensures not_its_own { IsFalse (is_some (machine_after (limits 1 9) empty own_is_busy)) }
{}
