//! Laws of a page's course and its list.
ghost use Rattle.vf_expand.specs.Laws.{CoursesAreLists, LibrariesHaveFonts, MembersAreTheList, LooksAreThePages, ListsAreFollowed, LoopsAreTooDeep, ThePacketIsWorked, ThePageIsWorked};
ghost use Rattle.vf_expand.specs.Lacks.{LacksAreCut, LacksAreWorked, StrictPagesStopAtALack, TolerantPagesGoOn};
ghost use Rattle.vf_expand.specs.Packets.{CharactersMoveAsPacked, PacketsAreBalanced};
ghost use Rattle.vf_expand.specs.WorkedFaults.{FontsOfPacketsAreWorked, FontsOfPagesAreWorked};

/// A page's course and its one list, whatever the fonts are; over a library, what is followed of it
/// is the list's beginning, and so are its look-ups.
pub fn lists()
    ensures courses { CoursesAreLists }
    ensures fonts { LibrariesHaveFonts }
    ensures members { MembersAreTheList }
    ensures looks { LooksAreThePages }
    ensures followed { ListsAreFollowed }
    ensures worked { ThePageIsWorked }
    ensures packets { ThePacketIsWorked }
    ensures loops { LoopsAreTooDeep }
{}

/// The packet of a virtual character, with the packets inside it, restores each set of registers
/// that it saves, and no other, whatever fonts are found: a packet that pops too much, or leaves a
/// push open, is in no font. So the character moves the page as a packed one of its width does.
pub fn packets()
    ensures balanced { PacketsAreBalanced }
    ensures moved { CharactersMoveAsPacked }
{}

/// Each lack of a tolerant page is a missing font, character, glyph or packet, and no such fault
/// ends it. Any other page is the same up to its first lack, which is its fault. Worked pages with
/// a lack of each kind.
pub fn lacks()
    ensures tolerant { TolerantPagesGoOn }
    ensures strict { StrictPagesStopAtALack }
    ensures worked { LacksAreWorked }
    ensures cut { LacksAreCut }
{}

/// Worked pages without a font: the space is 0 before the first font, a character there is a fault,
/// and so is a change to a font that isn't defined, on a page and in a packet.
pub fn without_fonts()
    ensures pages { FontsOfPagesAreWorked }
    ensures packets { FontsOfPacketsAreWorked }
{}
