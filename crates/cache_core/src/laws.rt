//! Laws over the machine's histories, each a clause of a function without a body.

ghost use Rattle.cache_core.specs.Laws.{PrefixesAreLegal, KeysAreEqual, KeysAreThemselves, ClaimsAreOwn, ClaimsAreFew, ClaimsAlwaysFit, LooksAreAnswered, FontsAlwaysFit, FillsAreOne, NoneAloneIsBusy, SoloIsOne, SoloIsThere};
ghost use Rattle.cache_core.specs.Laws.{OwnsAreJoined, OwnsAreHistory, KeysAreLooks, PrefixesHaveCalls, CallsAreJoined};

/// The prefixes of a legal history, the test of keys, what a seat's own calls say of its claim, how
/// often a key is claimed, what holds of the claims and of the fonts of a state, which answer a
/// look is given, and in which one way a font is taken in.
#[tactic(auto, using(crate::proofs::Steps::prefixes_are_legal, crate::proofs::SameKeys::keys_are_equal, crate::proofs::SameKeys::key_is_itself, crate::proofs::OwnClaims::claims_are_own, crate::proofs::FewClaims::claims_are_few))]
pub fn histories()
    ensures prefixes { PrefixesAreLegal }
    ensures keys { KeysAreEqual }
    ensures same_key { KeysAreThemselves }
    ensures claims { ClaimsAreOwn }
    ensures few_claims { ClaimsAreFew }
    ensures claims_fit { ClaimsAlwaysFit }
    ensures looks { LooksAreAnswered }
    ensures fonts_fit { FontsAlwaysFit }
    ensures fills { FillsAreOne }
{}

/// A seat's own calls, in joined lists and in a history of that seat alone.
pub fn own_calls()
    ensures joined { OwnsAreJoined }
    ensures alone { OwnsAreHistory }
{}

/// The keys that a seat asked for, and its calls: the calls determine the keys, and joined lists of
/// keys have joined lists of calls, both ways.
pub fn seat_calls()
    ensures keys { KeysAreLooks }
    ensures prefixes { PrefixesHaveCalls }
    ensures joined { CallsAreJoined }
{}

/// The calls of a seat that has the cache to itself: no look is busy, and where no claim is given
/// up the keys asked leave one history alone.
pub fn solo()
    ensures busy { NoneAloneIsBusy }
    ensures one { SoloIsOne }
    ensures there { SoloIsThere }
{}
