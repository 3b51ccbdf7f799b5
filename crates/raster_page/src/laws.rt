//! Laws over the definitions, each the contract of a function without a body.

ghost use Rattle.raster_page.specs.Ink.{MarksAdd, MarksCommute, NewestMayStandLast, DotsAreDecidedAlone};

/// Marks may be set one after another and in any order, and each dot is decided alone.
pub fn marks()
    ensures add { MarksAdd }
    ensures newest_last { NewestMayStandLast }
    ensures alone { DotsAreDecidedAlone }
{}

/// A rule and a raster, or two of a kind, may be set in either order.
pub fn either_order()
    ensures { MarksCommute }
{}
