//! Why a pen stops.

use std::alloc::AllocFailed;
use thiserror::Error;

/// Why no state of the registers follows a flat command.
#[derive(Clone, Copy, Debug, PartialEq, Eq, Error)]
pub enum PenFault {
    /// h or v would leave -2147483647..2147483647.
    #[error("overflow")]
    Overflow,
    /// Registers are restored, and none are saved.
    #[error("stack empty")]
    StackEmpty,
    /// Registers are saved, and 1000 are saved already.
    #[error("stack deep")]
    StackDeep,
    /// The page ends, and registers are still saved.
    #[error("stack left")]
    StackLeft,
}

/// Why a step wasn't made. The pen is then as it was.
#[derive(Clone, Copy, Debug, PartialEq, Eq, Error)]
pub enum PenStop {
    /// The page has this fault.
    #[error("{0}")]
    Fault(PenFault),
    /// There is no memory for the registers to be saved.
    #[error("out of memory")]
    NoMemory,
}

impl From<PenFault> for PenStop {
    ghost use Rattle.std.specs.Prelude.{◌≡◌};
    ghost use Rattle.drift_rules.specs.declared.faults.PenStop.TheVariants.{Fault};

    ghost from_gives = { λ fault stop. stop ≡ Fault fault };

    fn from(fault: PenFault) -> PenStop {
        PenStop::Fault(fault)
    }
}

impl<T: Drop> From<AllocFailed<T>> for PenStop {
    ghost use Rattle.std.specs.Prelude.{◌≡◌};
    ghost use Rattle.drift_rules.specs.declared.faults.PenStop.TheVariants.{NoMemory};

    ghost from_gives = { λ _ stop. stop ≡ NoMemory };

    fn from(_: AllocFailed<T>) -> PenStop {
        PenStop::NoMemory
    }
}
