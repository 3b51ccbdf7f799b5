//! A common part that only proofs read.
ghost use Rattle.std.specs.Prelude.{◌≡◌};
ghost use Rattle.std.specs.Borrow.{ftrue};
ghost use Rattle.cache_core.specs.declared.common.Common.{Common};
ghost use Rattle.cache_core.specs.Codes.{common_code};

use std::marker::Model;

/// A common part that only proofs read. It takes no bytes, and owns nothing.
#[derive(Drop)]
pub struct GhostCommon {
    pub ghost part: { Common } by { common_code },
}

impl Model for GhostCommon {
    ghost also_owns = { λ _. ftrue };
}

impl GhostCommon {
    /// The part that the caller's proof picks.
    pub fn pick() -> GhostCommon
        ghost part: { Common }
        ensures { result.part ≡ part }
    {
        GhostCommon {}
    }
}
