//! The end of a document.
ghost use Rattle.std.specs.Prelude.{◌≡◌, ◌≤◌, IfErr, OnOk, None, Some, drop, length};
ghost use Rattle.std.specs.List.{take_while};
ghost use Rattle.page_index.specs.Judged.{is_filler, leads_to as leads, postpost_fault, tail_fault};

use crate::faults::DocFault;
use big_endian::signed;

const IDENTIFIER: u8 = 2;

// What stands after a document, up to its end.
const FILLER: u8 = 223;

// The least number of these bytes.
const FEWEST: usize = 4;

// Whether a pointer leads to the postamble.
fn leads_to(post: Option<usize>, pointer: i32) -> bool
    ensures { result ≡ leads post pointer }
{
    match post {
        None => false,
        Some(at) => pointer >= 0 && pointer as usize == at,
    }
}

/// Judges the PostPost at a place, field by field. Its pointer is to be the position of the
/// postamble.
pub fn judge_trailer(bytes: &[u8], at: usize, post: Option<usize>) -> Result<(), DocFault>
    requires { at ≤ length bytes.now }
    ensures right { OnOk result (postpost_fault post at (drop at bytes.now) ≡ None) }
    ensures fault { IfErr result (λ fault.
        postpost_fault post at (drop at bytes.now) ≡ Some fault) }
{
    let truncated = DocFault::Truncated { at: bytes.len() };
    let rest = &bytes[at..];
    if rest.len() < 5 {
        return Err(truncated);
    }
    if !leads_to(post, signed(&rest[1..5])) {
        return Err(DocFault::Trailer { at: at + 1 });
    }
    if rest.len() < 6 {
        return Err(truncated);
    }
    if rest[5] != IDENTIFIER {
        return Err(DocFault::Trailer { at: at + 5 });
    }
    Ok(())
}

// How many bytes 223 stand at the beginning.
fn filler_length(bytes: &[u8]) -> usize
    ensures length { result ≡ length (take_while is_filler bytes.now) }
    ensures within { result ≤ length bytes.now }
{
    bytes.iter().take_while(|byte| **byte == FILLER).count()
}

/// Judges what follows PostPost: at least four bytes 223, and nothing else.
pub fn judge_filler(bytes: &[u8], at: usize) -> Result<(), DocFault>
    requires { at ≤ length bytes.now }
    ensures right { OnOk result (tail_fault at (drop at bytes.now) ≡ None) }
    ensures fault { IfErr result (λ fault. tail_fault at (drop at bytes.now) ≡ Some fault) }
{
    let rest = &bytes[at..];
    let filler = filler_length(rest);
    if filler < rest.len() {
        return Err(DocFault::Trailer { at: at + filler });
    }
    if filler < FEWEST {
        return Err(DocFault::Truncated { at: bytes.len() });
    }
    Ok(())
}
