//! What can be wrong with a TFM file.
use std::alloc::AllocError;

/// What is wrong with a TFM file, in the order in which it is looked for. `Short` comes first, and
/// again after `Counts`; the first width is looked at before the others.
#[derive(Clone, Copy, Debug, PartialEq, Eq, thiserror::Error)]
pub enum TfmFault {
    /// The counts, or the words that they announce, aren't all there.
    #[error("the file is too short")]
    Short,
    /// The counts don't agree with one another.
    #[error("the counts are wrong")]
    Counts,
    /// This code has a width index for which there is no width.
    #[error("the width index of character {0} is too high")]
    WidthIndex(u8),
    /// The first byte of this width is neither 0 nor 255.
    #[error("width {0} is too large")]
    WidthByte(u16),
    /// The first width isn't 0.
    #[error("width 0 isn't zero")]
    WidthZero,
}

/// Why a TFM file was not read.
#[derive(Clone, Copy, Debug, PartialEq, Eq, thiserror::Error)]
pub enum TfmStop {
    /// Something is wrong with it.
    #[error("{0}")]
    Fault(TfmFault),
    /// Out of memory.
    #[error("out of memory")]
    NoMemory,
}

impl From<TfmFault> for TfmStop {
    ghost use Rattle.std.specs.Prelude.{◌≡◌};
    ghost use Rattle.tfm_reader.specs.declared.faults.TfmStop.TheVariants.{Fault};

    ghost from_gives = { λ f stop. stop ≡ Fault f };

    fn from(fault: TfmFault) -> TfmStop {
        TfmStop::Fault(fault)
    }
}

impl From<AllocError> for TfmStop {
    ghost use Rattle.std.specs.Prelude.{◌≡◌};
    ghost use Rattle.tfm_reader.specs.declared.faults.TfmStop.TheVariants.{NoMemory};

    ghost from_gives = { λ _ stop. stop ≡ NoMemory };

    fn from(_: AllocError) -> TfmStop {
        TfmStop::NoMemory
    }
}
