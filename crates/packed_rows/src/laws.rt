//! Laws over the definitions, each the contract of a function without a body.

ghost use Rattle.packed_rows.specs.Packing.{PackingGivesBack, PixelsDetermineTheBytes, RowsHaveTheirWidth};

/// Reading the pixels undoes the packing, so the pixels determine the bytes.
pub fn packing()
    ensures gives_back { PackingGivesBack }
    ensures determined { PixelsDetermineTheBytes }
    ensures width { RowsHaveTheirWidth }
{}
