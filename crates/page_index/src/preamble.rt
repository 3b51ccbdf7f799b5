//! The preamble of a document.
ghost use Rattle.std.specs.Prelude.{◌≡◌, ◌+◌, ◌≤◌, ◌<◌, ◌^◌, IfErr, IfOk, None, Some, length, pos};
ghost use Rattle.big_endian.specs.Fields.{signed_at};
ghost use Rattle.page_index.specs.Judged.{preamble_fault};
ghost use Rattle.page_index.specs.Walked.{IsScaled, positive_fault};
ghost use Rattle.pixel_round.specs.Limits.{MAX_RESOLUTION};

use crate::faults::DocFault;
use big_endian::signed;
use pixel_round::{Conv, Units};

const PRE: u8 = 247;

const IDENTIFIER: u8 = 2;

/// The numbers of a preamble that are right, and the conversion to dots that they make.
#[derive(Clone, Copy)]
pub struct Scaled {
    pub units: Units,
    pub conv: Conv,
}

// The number above 0 in the four bytes at a place.
fn positive(bytes: &[u8], at: usize) -> Result<u32, DocFault>
    requires { at ≤ 10 }
    ensures number { IfOk result (λ n. (positive_fault bytes.now at ≡ None)
        × (signed_at bytes.now at 4 ≡ pos n) × (0 < n) × (n < 2 ^ 31)) }
    ensures fault { IfErr result (λ fault. positive_fault bytes.now at ≡ Some fault) }
{
    if bytes.len() < at + 4 {
        return Err(DocFault::Truncated { at: bytes.len() });
    }
    let number = signed(&bytes[at..at + 4]);
    if number <= 0 {
        return Err(DocFault::Preamble { at });
    }
    Ok(number as u32)
}

/// Judges the preamble at the beginning of the bytes, field by field, and gives its numbers and
/// their conversion at a resolution.
pub fn judge_preamble(bytes: &[u8], res: u32) -> Result<Scaled, DocFault>
    requires some { 1 ≤ res }
    requires fine { res ≤ MAX_RESOLUTION }
    ensures right { IfOk result (λ _. preamble_fault res bytes.now ≡ None) }
    ensures scaled { IfOk result (λ scaled. IsScaled scaled (signed_at bytes.now 2 4)
        (signed_at bytes.now 6 4) (signed_at bytes.now 10 4)) }
    ensures resolution { IfOk result (λ scaled. scaled.units.res ≡ res) }
    ensures fault { IfErr result (λ fault. preamble_fault res bytes.now ≡ Some fault) }
{
    let truncated = DocFault::Truncated { at: bytes.len() };
    if bytes.is_empty() {
        return Err(truncated);
    }
    if bytes[0] != PRE {
        return Err(DocFault::Preamble { at: 0 });
    }
    if bytes.len() < 2 {
        return Err(truncated);
    }
    if bytes[1] != IDENTIFIER {
        return Err(DocFault::Preamble { at: 1 });
    }
    let units = Units {
        num: positive(bytes, 2)?,
        den: positive(bytes, 6)?,
        mag: positive(bytes, 10)?,
        res,
    };
    let Ok(conv) = Conv::new(&units) else {
        return Err(DocFault::Scale { at: 2 });
    };
    if bytes.len() < 15 || bytes.len() < 15 + bytes[14] as usize {
        return Err(truncated);
    }
    Ok(Scaled { units, conv })
}
