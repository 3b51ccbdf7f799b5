//! The next run length or repeat count.

ghost use Rattle.std.specs.Prelude.{◌≤◌, MatchResult};
ghost use Rattle.pk_runs.specs.Reading.{IsItemRead, CantRead};

use super::PackedNumber;
use crate::faults::RunFault;
use crate::numbers::number;
use crate::nybbles::Nybbles;

/// Reads the next run length or repeat count. `repeated` says that the next row has a repeat count
/// already, and `row` how many rows are complete.
#[inline(always)]
pub fn next_item(
    nybbles: &mut Nybbles,
    dyn_f: u8,
    row: u32,
    repeated: bool,
) -> Result<PackedNumber, RunFault>
    requires { dyn_f ≤ 13 }
    ensures { MatchResult result (IsItemRead dyn_f nybbles.old nybbles.new repeated)
        (CantRead dyn_f nybbles.old row repeated) }
{
    let Some(first) = nybbles.next() else {
        return Err(RunFault::Short);
    };
    // Most items: a run of one nybble, from 1 to dyn_f.
    if first.wrapping_sub(1) < dyn_f {
        return Ok(PackedNumber::Run(u64::from(first)));
    }
    if first < 14 {
        return match number(nybbles, dyn_f, first) {
            Some(n) => Ok(PackedNumber::Run(n)),
            None => Err(RunFault::Short),
        };
    }
    if repeated {
        return Err(RunFault::SecondRepeat(row));
    }
    if first == 15 {
        return Ok(PackedNumber::Repeat(1));
    }
    let Some(second) = nybbles.next() else {
        return Err(RunFault::Short);
    };
    if second >= 14 {
        return Err(RunFault::SecondRepeat(row));
    }
    match number(nybbles, dyn_f, second) {
        Some(n) => Ok(PackedNumber::Repeat(n)),
        None => Err(RunFault::Short),
    }
}
