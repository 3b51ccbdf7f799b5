//! Why bytes stand for no raster.

use std::alloc::AllocError;

/// What is wrong with the bytes of a raster: the first fault.
#[derive(Clone, Copy, Debug, PartialEq, Eq, thiserror::Error)]
pub enum RunFault {
    /// The bytes end before the raster is complete.
    #[error("short raster")]
    Short,
    /// A run is longer than the pixels that runs still have to give.
    #[error("a run is too long")]
    Overrun,
    /// A second repeat count for a row, below n complete rows.
    #[error("a second repeat count in row {0}")]
    SecondRepeat(u32),
    /// A row and its copies do not fit above the raster's lower edge.
    #[error("too many rows")]
    TooManyRows,
}

/// Why no raster was made.
#[derive(Clone, Copy, Debug, PartialEq, Eq, thiserror::Error)]
pub enum RunStop {
    #[error("{0}")]
    Fault(RunFault),
    #[error("out of memory")]
    NoMemory,
}

impl From<RunFault> for RunStop {
    ghost use Rattle.std.specs.Prelude.{◌≡◌};
    ghost use Rattle.pk_runs.specs.declared.faults.RunStop.TheVariants.{Fault};

    ghost from_gives = { λ f stop. stop ≡ Fault f };

    fn from(fault: RunFault) -> RunStop {
        RunStop::Fault(fault)
    }
}

impl From<AllocError> for RunStop {
    ghost use Rattle.std.specs.Prelude.{◌≡◌};
    ghost use Rattle.pk_runs.specs.declared.faults.RunStop.TheVariants.{NoMemory};

    ghost from_gives = { λ _ stop. stop ≡ NoMemory };

    fn from(_: AllocError) -> RunStop {
        RunStop::NoMemory
    }
}
