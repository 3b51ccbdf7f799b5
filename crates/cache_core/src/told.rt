//! What a turn lock asks of the value that it hands from seat to seat.

/// A value that takes turns. Proofs know its history, the number of its turns, and in which common
/// parts it stands.
pub trait Told {
    ghost use Rattle.std.specs.Prelude.{ℕ, List};
    ghost use Rattle.cache_core.specs.declared.calls.Call.{Call};
    ghost use Rattle.cache_core.specs.declared.common.Common.{Common};

    /// The accepted calls, in order. The list only grows.
    ghost history: { Self → List Call };

    /// How many turns were taken, refused ones included.
    ghost turns: { Self → ℕ };

    /// In which common parts it stands.
    ghost stands: { Self → Common → Type 0 };
}

/// The owner of a value takes turns as the value does. What is handed from seat to seat is then no
/// more than the owner, and the value stays where it is.
impl<T: Told> Told for Box<T> {
    ghost history = { λ owner. T.history owner.value };

    ghost turns = { λ owner. T.turns owner.value };

    ghost stands = { λ owner part. T.stands owner.value part };
}
