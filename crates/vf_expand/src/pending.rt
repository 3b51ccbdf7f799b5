//! A flat command that is still to come.
ghost use Rattle.std.specs.Prelude.{◌≡◌, IfSome};
ghost use Rattle.drift_rules.specs.Bounds.{IsInReach, IsNumber};
ghost use Rattle.drift_rules.specs.Position.{value_of_flat};
ghost use Rattle.vf_expand.specs.Course.{in_place};
ghost use Rattle.vf_expand.specs.Expansion.{flat_of_pending, pending_advance};

use drift_rules::Flat;

/// What comes after the packet of a character that was set, and in place of a character that is
/// lacking: a motion, or a command that does nothing.
#[derive(Clone, Copy)]
pub enum Pending {
    Skip,
    Advance(i64),
}

impl Pending {
    /// What comes in place of a character that moves so far.
    #[inline(always)]
    pub fn in_place(advance: Option<i64>) -> Pending
        requires { IfSome advance IsNumber }
        ensures value { flat_of_pending result ≡ in_place advance }
        ensures fits { IsInReach (flat_of_pending result) }
    {
        match advance {
            Some(width) => Pending::Advance(width),
            None => Pending::Skip,
        }
    }

    /// What comes after a packet whose character moves so far.
    #[inline(always)]
    pub fn after_packet(advance: Option<i64>) -> Option<Pending>
        requires { IfSome advance IsNumber }
        ensures value { result ≡ pending_advance advance }
        ensures fits { IfSome result (λ p. IsInReach (flat_of_pending p)) }
    {
        match advance {
            Some(width) => Some(Pending::Advance(width)),
            None => None,
        }
    }

    /// The flat command.
    #[inline(always)]
    pub fn flat(self) -> Flat
        ensures { value_of_flat result ≡ flat_of_pending self }
    {
        match self {
            Pending::Skip => Flat::Skip,
            Pending::Advance(width) => Flat::Advance { width },
        }
    }
}
