//! What can be wrong with a VF file.
use byte_cursor::Short;
use dvi_commands::CommandFault;
use std::alloc::AllocError;

/// What is wrong with a VF file: the first fault, by items in the order of the file. A packet is
/// judged when it is whole, by its commands from the left.
#[derive(Clone, Copy, Debug, PartialEq, Eq, thiserror::Error)]
pub enum VfFault {
    /// The file ends within an item or before the closing command.
    #[error("the file is too short")]
    Short,
    /// The first two bytes aren't 247 and 202.
    #[error("the preamble is wrong")]
    Preamble,
    /// This opcode, 247 or 249 to 255, isn't allowed after the preamble.
    #[error("command {0} is misplaced")]
    Misplaced(u8),
    /// A command of this character's packet can't be read.
    #[error("the packet of character {0}: {1}")]
    Packet(u32, CommandFault),
    /// A pop of this character's packet has no push, or a push has no pop.
    #[error("push and pop of character {0} don't match")]
    Unbalanced(u32),
    /// The definition of this local font has sizes out of range, or differs from an earlier one.
    #[error("the definition of local font {0} is wrong")]
    LocalDef(i32),
    /// A motion or a side of a rule in this character's packet isn't from -2^24 to 2^24 - 1.
    #[error("a dimension of character {0} is out of range")]
    Dimension(u32),
}

/// Why a VF file was not read.
#[derive(Clone, Copy, Debug, PartialEq, Eq, thiserror::Error)]
pub enum VfStop {
    /// Something is wrong with it.
    #[error("{0}")]
    Fault(VfFault),
    /// Out of memory.
    #[error("out of memory")]
    NoMemory,
}

impl From<Short> for VfFault {
    ghost use Rattle.std.specs.Prelude.{◌≡◌};
    ghost use Rattle.vf_reader.specs.declared.faults.VfFault.TheVariants as fault;

    ghost from_gives = { λ _ f. f ≡ fault.Short };

    fn from(_: Short) -> VfFault {
        VfFault::Short
    }
}

impl From<VfFault> for VfStop {
    ghost use Rattle.std.specs.Prelude.{◌≡◌};
    ghost use Rattle.vf_reader.specs.declared.faults.VfStop.TheVariants.{Fault};

    ghost from_gives = { λ f stop. stop ≡ Fault f };

    fn from(fault: VfFault) -> VfStop {
        VfStop::Fault(fault)
    }
}

impl From<AllocError> for VfStop {
    ghost use Rattle.std.specs.Prelude.{◌≡◌};
    ghost use Rattle.vf_reader.specs.declared.faults.VfStop.TheVariants.{NoMemory};

    ghost from_gives = { λ _ stop. stop ≡ NoMemory };

    fn from(_: AllocError) -> VfStop {
        VfStop::NoMemory
    }
}
