//! What can be wrong with a PK file.
use byte_cursor::Short;
use pk_runs::{RunFault, RunStop};
use std::alloc::AllocError;

/// What is wrong with a PK file: the first fault, by items in the order of the file. In a packet, a
/// length that is too small comes first, then a side that is too long, then the sum of the rasters,
/// then its runs.
#[derive(Clone, Copy, Debug, PartialEq, Eq, thiserror::Error)]
pub enum PkFault {
    /// The file ends within an item or before the closing command.
    #[error("the file is too short")]
    Short,
    /// The first two bytes aren't 247 and 89.
    #[error("the preamble is wrong")]
    Preamble,
    /// This opcode, 247 or above, isn't defined after the preamble.
    #[error("command {0} is undefined")]
    Undefined(u8),
    /// A side of this character's raster has more than 16,384 dots.
    #[error("the raster of character {0} is too big")]
    TooBig(u32),
    /// The raster's bytes of this character stand for no raster.
    #[error("the runs of character {0}: {1}")]
    Runs(u32, RunFault),
    /// The rasters of the packets up to here, with those that were replaced, take more than
    /// 8,388,608 bytes.
    #[error("the font is too big")]
    FontTooBig,
    /// This character's packet is too short for the fields of its form.
    #[error("the packet of character {0} is too short")]
    Length(u32),
}

/// Why a PK file was not read.
#[derive(Clone, Copy, Debug, PartialEq, Eq, thiserror::Error)]
pub enum PkStop {
    /// Something is wrong with it.
    #[error("{0}")]
    Fault(PkFault),
    /// Out of memory.
    #[error("out of memory")]
    NoMemory,
}

impl From<Short> for PkFault {
    ghost use Rattle.std.specs.Prelude.{◌≡◌};
    ghost use Rattle.pk_packets.specs.declared.faults.PkFault.TheVariants as fault;

    ghost from_gives = { λ _ f. f ≡ fault.Short };

    fn from(_: Short) -> PkFault {
        PkFault::Short
    }
}

impl From<PkFault> for PkStop {
    ghost use Rattle.std.specs.Prelude.{◌≡◌};
    ghost use Rattle.pk_packets.specs.declared.faults.PkStop.TheVariants.{Fault};

    ghost from_gives = { λ f stop. stop ≡ Fault f };

    fn from(fault: PkFault) -> PkStop {
        PkStop::Fault(fault)
    }
}

impl From<AllocError> for PkStop {
    ghost use Rattle.std.specs.Prelude.{◌≡◌};
    ghost use Rattle.pk_packets.specs.declared.faults.PkStop.TheVariants.{NoMemory};

    ghost from_gives = { λ _ stop. stop ≡ NoMemory };

    fn from(_: AllocError) -> PkStop {
        PkStop::NoMemory
    }
}
