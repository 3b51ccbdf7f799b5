//! Laws of the rule of the lock and of own calls, each a clause of a function without a body.
ghost use Rattle.turn_lock.specs.Laws.{MakeKeeps, DrawKeeps, LookKeeps, HandOnKeeps, AskKeeps, SplitKeeps, JoinKeeps, CompareKeeps, CallsAreOwn, OwnCallsDetermineAll, AloneIsHistory, OwnsAreWhole};
ghost use Rattle.turn_lock.specs.RuleParts.{NumbersAlways, TicketsAlways, DrawsAlways, SlotAlways, PartAlways, HistoryAlways};

use cache_core::Told;

/// The rule holds when a lock is made, and each kind of step keeps it, whatever other seats did
/// before. So it holds between any two steps.
pub fn steps_keep<T: Told>()
    ensures make { MakeKeeps T.history T.turns T.stands }
    ensures draw { DrawKeeps T.history T.turns T.stands }
    ensures look { LookKeeps T.history T.turns T.stands }
    ensures hand_on { HandOnKeeps T.history T.turns T.stands }
    ensures ask { AskKeeps T.history T.turns T.stands }
    ensures split { SplitKeeps T.history T.turns T.stands }
    ensures join { JoinKeeps T.history T.turns T.stands }
    ensures compare { CompareKeeps T.history T.turns T.stands }
{}

/// What the rule says, part by part: of the numbers of seats, of tickets, of the turns drawn, of
/// the slot, of the common part, and of the one history.
pub fn rule_says<T: Told>()
    ensures numbers { NumbersAlways T.history T.turns T.stands }
    ensures tickets { TicketsAlways T.history T.turns T.stands }
    ensures draws { DrawsAlways T.history T.turns T.stands }
    ensures slot { SlotAlways T.history T.turns T.stands }
    ensures common_part { PartAlways T.history T.turns T.stands }
    ensures history { HistoryAlways T.history T.turns T.stands }
{}

/// What the own calls of the seats that were made say of the history: each of its calls is one of
/// them, a test that they pass is passed by all, a seat that called alone has all calls, and a
/// prefix with all their calls is the whole.
pub fn own_calls()
    ensures own { CallsAreOwn }
    ensures all { OwnCallsDetermineAll }
    ensures alone { AloneIsHistory }
    ensures whole { OwnsAreWhole }
{}
