//! Laws over the registers, each a clause of a function without a body.

ghost use Rattle.drift_rules.specs.Position.{StepsKeepNear, PagesKeepNear};
ghost use Rattle.drift_rules.specs.Stack.{DeepAtAPush, EmptyAtAPop, FewAreSaved, PacketsMoveAsCharacters, PopsGiveBack, SavedStay};

/// hh is never farther than two dots from h rounded, nor vv from v, among the saved registers too:
/// each command keeps it, and so it holds in every state that a page's commands lead to, whatever
/// their spaces.
pub fn places_stay_near()
    ensures by_step { StepsKeepNear }
    ensures on_page { PagesKeepNear }
{}

/// Between a push and its pop, and from a packet's beginning to its end, the registers that were
/// saved before stay; then all eight come back as they were, hh and vv too, whatever the commands
/// between them are. So a virtual character that is set moves the page as a packed one of its width
/// does.
pub fn pops_give_back()
    ensures all_eight { PopsGiveBack }
    ensures saved_before { SavedStay }
    ensures packets { PacketsMoveAsCharacters }
{}

/// Registers are saved 1000 times at most. A fault of the stack comes exactly at a push or a
/// packet's beginning that finds 1000 saved, and at a pop or a packet's end that finds none.
pub fn stack_has_bounds()
    ensures few { FewAreSaved }
    ensures deep { DeepAtAPush }
    ensures empty { EmptyAtAPop }
{}
