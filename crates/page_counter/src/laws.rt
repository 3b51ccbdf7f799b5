//! Laws of the rule of the counter and of the claims of seats, each a clause of a function without
//! a body.
ghost use Rattle.page_counter.specs.Laws.{MakeKeeps, ClaimKeeps, SplitKeeps, JoinKeeps, CounterCounts, SeatsCounted, ClaimedByOne, NoOtherClaimed, NoneInCommon, ClaimsRise, ClaimsFew, OnceIsCount, OnceHasAll, OnceHasNoOther, OnceHasLower, OnceIsApart, OnceBelow, OnceReached, ClaimsAreOfSeats, SeatsHaveClaims};

/// The rule holds when a counter is made, and each kind of step keeps it, whatever other seats did
/// before. So it holds between any two steps.
pub fn steps_keep()
    ensures make { MakeKeeps }
    ensures claim { ClaimKeeps }
    ensures split { SplitKeeps }
    ensures join { JoinKeeps }
{}

/// What the rule says: the word is how many claims were made; at most 33 seats were made, each live
/// or joined; each number below the word was claimed by exactly one seat, and no other number was;
/// two seats never have a claim in common; and a seat's claims rise, and are at most 64.
pub fn rule_says()
    ensures counter { CounterCounts }
    ensures seats { SeatsCounted }
    ensures one { ClaimedByOne }
    ensures no_other { NoOtherClaimed }
    ensures apart { NoneInCommon }
    ensures rise { ClaimsRise }
    ensures few { ClaimsFew }
{}

/// What it means that each number below n is in a list once, as `close` says of all claims: how
/// many there are, which there are, that two parts have none in common, and which are below a
/// bound.
pub fn each_once()
    ensures count { OnceIsCount }
    ensures all { OnceHasAll }
    ensures no_other { OnceHasNoOther }
    ensures lower { OnceHasLower }
    ensures apart { OnceIsApart }
    ensures below { OnceBelow }
    ensures reached { OnceReached }
{}

/// The claims of many seats are those of each of them.
pub fn claims_of_seats()
    ensures of_one { ClaimsAreOfSeats }
    ensures of_each { SeatsHaveClaims }
{}
