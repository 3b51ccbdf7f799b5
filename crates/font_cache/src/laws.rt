//! Laws of the claims of seats, each a clause of a function that does nothing.
ghost use Rattle.font_cache.specs.Laws.{ClaimsAreLast, HeldByLast};

use cache_core::laws::histories;

/// A seat holds a claim exactly where the last of its own calls is a look that claimed the key: by
/// its calls alone, and in the state after the whole history.
pub fn claims()
    ensures last { ClaimsAreLast }
    ensures held { HeldByLast }
{
    // For the proof: a seat's claim in the state is the one that its own calls have left to it.
    histories();
}
