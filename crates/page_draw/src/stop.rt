//! Why a page was not drawn.
use font_decode::DeskStop;
use std::alloc::AllocError;
use vf_expand::PageFault;

/// Why a page was not drawn.
#[derive(Drop)]
pub enum PageStop {
    /// The page's first fault, and the position in the document of its command that has the fault,
    /// or of its Eop.
    Fault { fault: PageFault, at: usize },
    /// The source of a font's files failed.
    SourceFault,
    /// Out of memory.
    NoMemory,
}

impl From<AllocError> for PageStop {
    ghost use Rattle.std.specs.Prelude.{◌≡◌};
    ghost use Rattle.page_draw.specs.declared.stop.PageStop.TheVariants.{NoMemory};

    ghost from_gives = { λ _ stop. stop ≡ NoMemory };

    fn from(_: AllocError) -> PageStop {
        PageStop::NoMemory
    }
}

impl From<DeskStop> for PageStop {
    ghost use Rattle.std.specs.Prelude.{◌≡◌};
    ghost use Rattle.page_draw.specs.Stops.{stop_of_desk};

    ghost from_gives = { λ desk stop. stop ≡ stop_of_desk desk };

    fn from(desk: DeskStop) -> PageStop {
        match desk {
            DeskStop::SourceFault => PageStop::SourceFault,
            DeskStop::NoMemory => PageStop::NoMemory,
        }
    }
}
