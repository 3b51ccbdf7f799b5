//! Where one line lies over another.

ghost use Rattle.std.specs.Prelude.{◌≡◌, ◌+◌, ◌-◌, ◌<◌, ◌≤◌, pos, ◌-ℤ◌, max, min};
ghost use Rattle.packed_rows.specs.declared.offset.TheConstants.{MAX_COORDINATE};
ghost use Rattle.packed_rows.specs.Coordinates.{IsCoordinate};

use crate::rows::Span;

/// The farthest from a bitmap's upper left pixel that a raster or a rule may be placed, and the
/// longest side of a rule, in pixels either way.
pub const MAX_COORDINATE: usize = 1 << 42;

/// Place `p` of the lower line lies under place `p + skipped - start` of the upper one.
#[derive(Clone, Copy)]
pub struct Offset {
    pub start: usize,
    pub skipped: usize,
    ghost start_near: { start ≤ MAX_COORDINATE },
    ghost skipped_near: { skipped ≤ MAX_COORDINATE },
}

/// The offset of an upper line whose first place lies over place `at` of the lower one.
pub fn offset_of(at: i64) -> Offset
    requires { IsCoordinate at }
    ensures { pos result.start -ℤ pos result.skipped ≡ at }
{
    if at >= 0 {
        Offset {
            start: at as usize,
            skipped: 0,
        }
    } else {
        Offset {
            start: 0,
            skipped: (-at) as usize,
        }
    }
}

/// The places of a lower line of `side` places that lie under one of the `len` places of the upper
/// line.
pub fn reached(offset: Offset, len: usize, side: u32) -> Span
    requires { len < MAX_COORDINATE }
    ensures from { result.from ≡ min (offset.start - offset.skipped) side }
    ensures until { result.until
        ≡ max result.from (min (offset.start + len - offset.skipped) side) }
{
    let side = side as usize;
    let from = offset.start.saturating_sub(offset.skipped).min(side);
    let end = (offset.start + len).saturating_sub(offset.skipped);
    Span {
        from,
        until: end.min(side).max(from),
    }
}
