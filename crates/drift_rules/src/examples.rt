//! Worked characters, rules, motions, pushes, pops and packets at one half of a dot for a unit and
//! a space of 2, by computation.

ghost use Rattle.std.specs.Prelude.{◌≡◌, ℕ, Bool, pos, negsuc, true, false, Ok, Err, Some, None, [], ◌∷◌};
ghost use Rattle.outside.specs.declared.keys.FontKey.{FontKey};
ghost use Rattle.drift_rules.specs.declared.faults.PenFault.{PenFault};
ghost use Rattle.drift_rules.specs.Position.{state_after, at_origin, zeros, Char, Rule, Right, W, W0, X, X0, Down, Y, Y0, Z, Z0, Push, Pop, Enter, Leave, Advance};
ghost use Rattle.drift_rules.specs.Marks.{mark_of};
ghost use Rattle.drift_rules.specs.Examples.{half, across_to, at, at_h_2, at_h_5, at_remembered, at_v_2, char_mark, down_to, drifted_place, entered_place, remembered, row, rule_mark, with_saved};

/// A set character moves hh by its rounded width, and the drift rule corrects it: where h becomes
/// 6, an hh of 6 becomes 5. A width of -3 is -1.5 dots, of which hh takes -2. A character that is
/// put moves nothing, and both are marked where they stand, whatever their font and code are.
pub fn characters()
    ensures set_1 { (key : FontKey) (code : ℕ) → state_after half at_origin
        (Char key code (pos 1) false) ≡ row (pos 1) (pos 1) }
    ensures set_3_back { (key : FontKey) (code : ℕ)
        → state_after half at_h_2 (Char key code (negsuc 2) false) ≡ row (negsuc 0) (pos 0) }
    ensures held { (key : FontKey) (code : ℕ) → state_after half at_h_5
        (Char key code (pos 1) false) ≡ row (pos 6) (pos 5) }
    ensures put_stays { (key : FontKey) (code : ℕ)
        → state_after half at_h_2 (Char key code (pos 1) true) ≡ Ok at_h_2 }
    ensures marked { (key : FontKey) (code : ℕ) (put : Bool)
        → mark_of half drifted_place (Char key code (pos 6) put)
        ≡ Some (char_mark (pos 5) (pos 9)) }
{}

/// From h = 2 and hh = 2: a word space and a long way back are rounded anew, a small motion drifts.
pub fn across()
    ensures right_2 { state_after half at_h_2 (Right (pos 2) (pos 2)) ≡ row (pos 4) (pos 2) }
    ensures right_1 { state_after half at_h_2 (Right (pos 1) (pos 2)) ≡ row (pos 3) (pos 3) }
    ensures left_8 { state_after half at_h_2 (Right (negsuc 7) (pos 2))
        ≡ row (negsuc 5) (negsuc 2) }
    ensures left_7 { state_after half at_h_2 (Right (negsuc 6) (pos 2))
        ≡ row (negsuc 4) (negsuc 1) }
{}

/// From v = 2 and vv = 2: a line space, up or down, is rounded anew.
pub fn down()
    ensures down_10 { state_after half at_v_2 (Down (pos 10) (pos 2))
        ≡ Ok (at (pos 0) (pos 12) (pos 0) (pos 6)) }
    ensures down_9 { state_after half at_v_2 (Down (pos 9) (pos 2))
        ≡ Ok (at (pos 0) (pos 11) (pos 0) (pos 7)) }
    ensures up_10 { state_after half at_v_2 (Down (negsuc 9) (pos 2))
        ≡ Ok (at (pos 0) (negsuc 7) (pos 0) (negsuc 3)) }
{}

/// From h = 2 and hh = 2, where w holds 1 and x holds -7: a number becomes w or x and is then the
/// motion, and without one the motion is what w or x holds, which stays. The motions across leave y
/// and z. Where the space is 0 each is rounded anew.
pub fn remembered_across()
    ensures w { state_after half at_remembered (W (pos 2) (pos 2))
        ≡ across_to (pos 4) (pos 2) (pos 2) (negsuc 6) }
    ensures w0 { state_after half at_remembered (W0 (pos 2))
        ≡ across_to (pos 3) (pos 3) (pos 1) (negsuc 6) }
    ensures x { state_after half at_remembered (X (negsuc 7) (pos 2))
        ≡ across_to (negsuc 5) (negsuc 2) (pos 1) (negsuc 7) }
    ensures x0 { state_after half at_remembered (X0 (pos 2))
        ≡ across_to (negsuc 4) (negsuc 1) (pos 1) (negsuc 6) }
    ensures no_space { state_after half at_remembered (W0 (pos 0))
        ≡ across_to (pos 3) (pos 2) (pos 1) (negsuc 6) }
{}

/// From v = 2 and vv = 2, where y holds 9 and z holds -10: the same down, which leaves w and x.
pub fn remembered_down()
    ensures y { state_after half at_remembered (Y (pos 10) (pos 2))
        ≡ down_to (pos 12) (pos 6) (pos 10) (negsuc 9) }
    ensures y0 { state_after half at_remembered (Y0 (pos 2))
        ≡ down_to (pos 11) (pos 7) (pos 9) (negsuc 9) }
    ensures z { state_after half at_remembered (Z (negsuc 8) (pos 2))
        ≡ down_to (negsuc 6) (negsuc 2) (pos 9) (negsuc 8) }
    ensures z0 { state_after half at_remembered (Z0 (pos 2))
        ≡ down_to (negsuc 7) (negsuc 3) (pos 9) (negsuc 9) }
{}

/// A rule of height 3 and width 5 covers two rows and three columns, up from row 2 and right from
/// column 2, set or put. Set, it moves hh by its columns, and the drift rule corrects it; put, it
/// moves nothing. A rule without a height or of negative width marks nothing, and yet moves where
/// it is set: a width of -3 is -1.5 dots, of which hh takes -1.
pub fn rules_set_and_put()
    ensures marked { (put : Bool) → mark_of half remembered (Rule (pos 3) (pos 5) put)
        ≡ Some (rule_mark (pos 2) (pos 1) (pos 3) (pos 2)) }
    ensures set_moves { state_after half at_remembered (Rule (pos 3) (pos 5) false)
        ≡ across_to (pos 7) (pos 5) (pos 1) (negsuc 6) }
    ensures held { state_after half at_h_5 (Rule (pos 3) (pos 1) false) ≡ row (pos 6) (pos 5) }
    ensures put_stays { state_after half at_remembered (Rule (pos 3) (pos 5) true)
        ≡ Ok at_remembered }
    ensures no_height { (put : Bool) → mark_of half remembered (Rule (pos 0) (pos 5) put) ≡ None }
    ensures no_width { (put : Bool) → mark_of half remembered (Rule (pos 3) (negsuc 2) put)
        ≡ None }
    ensures back { state_after half at_remembered (Rule (pos 3) (negsuc 2) false)
        ≡ across_to (negsuc 0) (pos 1) (pos 1) (negsuc 6) }
{}

/// A push saves a place that has drifted, and a pop gives it back with its drift; where none is
/// saved, no state follows.
pub fn stack()
    ensures saved { state_after half (with_saved drifted_place []) Push
        ≡ Ok (with_saved drifted_place (drifted_place ∷ [])) }
    ensures restored { state_after half (with_saved zeros (drifted_place ∷ zeros ∷ [])) Pop
        ≡ Ok (with_saved drifted_place (zeros ∷ [])) }
    ensures empty { state_after half at_origin Pop ≡ Err PenFault.StackEmpty }
{}

/// A packet begins at the place where its character stands, with its drift and with w, x, y and z
/// 0, and its end gives back all eight. Over its character of 6 units hh then grows by 3 dots, even
/// where a motion of that width would be rounded anew: from h = 6 and hh = 5 hh becomes 8, not 6.
pub fn packets()
    ensures begins { state_after half (with_saved drifted_place []) Enter
        ≡ Ok (with_saved entered_place (drifted_place ∷ [])) }
    ensures ends { state_after half (with_saved entered_place (drifted_place ∷ zeros ∷ [])) Leave
        ≡ Ok (with_saved drifted_place (zeros ∷ [])) }
    ensures ends_once { state_after half at_origin Leave ≡ Err PenFault.StackEmpty }
    ensures advances { state_after half at_h_5 (Advance (pos 1)) ≡ row (pos 6) (pos 5) }
    ensures drifts { state_after half (at (pos 6) (pos 0) (pos 5) (pos 0)) (Advance (pos 6))
        ≡ row (pos 12) (pos 8) }
    ensures marks_nothing { mark_of half drifted_place (Advance (pos 6)) ≡ None }
{}
