//! What is wrong with a document.
use dvi_commands::CommandFault;
use std::alloc::AllocError;

/// A field of the postamble that doesn't agree with what comes before it.
#[derive(Clone, Copy, Debug, PartialEq, Eq)]
pub enum PostField {
    /// The pointer to the last page's beginning.
    Pointer,
    Num,
    Den,
    Mag,
    /// The number of pages, modulo 65536.
    Pages,
}

/// What is wrong with a document, and at which byte, counted from 0: the first fault from the left.
/// Knuth, DVItype, "Device-independent file format"; that a fault ends the reading, and which of
/// several faults at one place comes first, is this project's own choice.
#[derive(Clone, Copy, Debug, PartialEq, Eq)]
pub enum DocFault {
    /// The file ends where a further byte is needed; `at` is its length.
    Truncated { at: usize },
    /// The first two bytes aren't 247 and 2, or num, den or mag isn't above 0; `at` is the field's
    /// place.
    Preamble { at: usize },
    /// No command can be read; `at` is the place of its opcode.
    Command { fault: CommandFault, at: usize },
    /// The pointer of the Bop at this place doesn't lead to the Bop before it.
    BackPointer { at: usize },
    /// The definition at this place defines its font number otherwise than one before it.
    FontClash { number: i32, at: usize },
    /// A field of the postamble at this place is wrong.
    Postamble { field: PostField, at: usize },
    /// A field or a byte after the postamble is wrong; `at` is its place.
    Trailer { at: usize },
    /// A size of the definition at this place isn't above 0 and below [`SIZES`](crate::SIZES).
    FontDef { number: i32, at: usize },
    /// A DVI unit would be more than 512 dots; `at` is the place of num.
    Scale { at: usize },
    /// The Bop at this place begins a page after the last of [`MAX_PAGES`](crate::MAX_PAGES).
    TooManyPages { at: usize },
    /// The file has more than [`MAX_DOCUMENT_LENGTH`](crate::MAX_DOCUMENT_LENGTH) bytes; `at` is
    /// that number.
    TooLong { at: usize },
}

/// Why a document was not read.
#[derive(Clone, Copy, Debug, PartialEq, Eq)]
pub enum IndexStop {
    /// Something is wrong with it.
    Fault(DocFault),
    /// Out of memory.
    NoMemory,
}

impl From<DocFault> for IndexStop {
    ghost use Rattle.std.specs.Prelude.{◌≡◌};
    ghost use Rattle.page_index.specs.declared.faults.IndexStop.TheVariants.{Fault};

    ghost from_gives = { λ f stop. stop ≡ Fault f };

    fn from(fault: DocFault) -> IndexStop {
        IndexStop::Fault(fault)
    }
}

impl From<AllocError> for IndexStop {
    ghost use Rattle.std.specs.Prelude.{◌≡◌};
    ghost use Rattle.page_index.specs.declared.faults.IndexStop.TheVariants.{NoMemory};

    ghost from_gives = { λ _ stop. stop ≡ NoMemory };

    fn from(_: AllocError) -> IndexStop {
        IndexStop::NoMemory
    }
}
