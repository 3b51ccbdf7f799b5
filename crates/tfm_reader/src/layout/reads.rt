//! Reading the counts.
ghost use Rattle.std.specs.Prelude.{◌≡◌, ◌<◌, ◌≤◌, ◌+◌, ◌*◌, IfErr, IfOk, None, OnOk, Some, length};
ghost use Rattle.tfm_reader.specs.Layout.{AreCountsOf, IsLayoutOf};
ghost use Rattle.tfm_reader.specs.Tfm.{are_right, count, counts_fault, others};

use super::{Counts, Layout};
use crate::TfmFault;

// The count at a place, of two bytes.
fn count(bytes: &[u8], k: usize) -> usize
    requires { 2 * k + 2 ≤ length bytes.now }
    ensures count { result ≡ count bytes.now k }
    ensures fits { result < 65536 }
{
    let at = 2 * k;
    big_endian::unsigned(&bytes[at..at + 2]) as usize
}

// The words of the seven tables after the widths.
fn others(bytes: &[u8]) -> usize
    requires { 24 ≤ length bytes.now }
    ensures number { result ≡ others bytes.now }
    ensures fits { result < 7 * 65536 }
{
    count(bytes, 5)
        + count(bytes, 6)
        + count(bytes, 7)
        + count(bytes, 8)
        + count(bytes, 9)
        + count(bytes, 10)
        + count(bytes, 11)
}

// The counts at the beginning.
fn counts(bytes: &[u8]) -> Counts
    requires { 24 ≤ length bytes.now }
    ensures { AreCountsOf result bytes.now }
{
    Counts {
        words: count(bytes, 0),
        header: count(bytes, 1),
        first: count(bytes, 2),
        last: count(bytes, 3),
        widths: count(bytes, 4),
        others: others(bytes),
    }
}

// Whether the counts go together.
fn are_right(c: &Counts) -> bool
    ensures { result ≡ are_right c.now.words c.now.header c.now.first c.now.last c.now.widths
        c.now.others }
{
    c.first <= c.last + 1
        && c.last <= 255
        && c.widths != 0
        && c.words == 6 + c.header + (c.last + 1 - c.first) + c.widths + c.others
}

/// The places that follow from the counts, or what is wrong with the counts.
pub fn places(bytes: &[u8]) -> Result<Layout, TfmFault>
    ensures places { IfOk result (λ layout. IsLayoutOf layout bytes.now) }
    ensures right { OnOk result (counts_fault bytes.now ≡ None) }
    ensures fault { IfErr result (λ fault. counts_fault bytes.now ≡ Some fault) }
{
    if bytes.len() < 24 {
        return Err(TfmFault::Short);
    }
    let counts = counts(bytes);
    if !are_right(&counts) {
        return Err(TfmFault::Counts);
    }
    if bytes.len() < 4 * counts.words {
        return Err(TfmFault::Short);
    }
    let codes = counts.last + 1 - counts.first;
    let infos = 4 * (6 + counts.header);
    Ok(Layout {
        first: counts.first,
        codes,
        infos,
        widths: infos + 4 * codes,
        count: counts.widths,
    })
}
