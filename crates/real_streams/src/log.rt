//! Bytes that only proofs read. They take no memory, and a call on them does nothing.
ghost use Rattle.std.specs.Prelude.{◌≡◌, ℕ, List, [], ◌++◌};
ghost use Rattle.std.specs.Borrow.{ftrue};

use std::marker::Model;

/// Bytes that went by.
#[derive(Drop)]
pub struct Log {
    pub ghost bytes: { List ℕ },
}

impl Model for Log {
    ghost also_owns = { λ _. ftrue };
}

/// Bytes that go by.
#[derive(Clone, Copy, Drop)]
pub struct Piece<'a> {
    pub bytes: &'a [u8],
}

impl Log {
    /// No byte went by.
    pub fn new() -> Log
        ensures { result.bytes ≡ [] }
    {
        Log {}
    }

    /// These bytes came after the others.
    pub fn with(_before: &Log, _piece: &Piece<'_>) -> Log
        ensures { result.bytes ≡ _before.now.bytes ++ _piece.now.bytes.now }
    {
        Log {}
    }
}
