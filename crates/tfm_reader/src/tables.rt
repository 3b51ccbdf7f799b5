//! The tables of a TFM file: what is wrong with them, and the width of a code.
ghost use Rattle.std.specs.Prelude.{◌≡◌, ◌<◌, IfSome, MatchResult, None, Some, pos};
ghost use Rattle.fix_word.specs.FixWords.{IsFixWord};
ghost use Rattle.tfm_reader.specs.Layout.{IsLayoutOf};
ghost use Rattle.tfm_reader.specs.Tfm.{byte_fault, index_fault, is_width_byte_wrong, tables_fault, tfm_width, width_index, width_word};

use crate::TfmFault;
use crate::layout::Layout;

// The width index of the i-th code.
fn width_index(bytes: &[u8], layout: &Layout, i: usize) -> usize
    requires places { IsLayoutOf layout.now bytes.now }
    requires inside { i < layout.now.codes }
    ensures index { result ≡ width_index bytes.now i }
    ensures fits { result < 256 }
{
    usize::from(bytes[layout.infos + 4 * i])
}

// The i-th width.
fn width_word(bytes: &[u8], layout: &Layout, i: usize) -> i32
    requires places { IsLayoutOf layout.now bytes.now }
    requires inside { i < layout.now.count }
    ensures { result ≡ width_word bytes.now i }
{
    let at = layout.widths + 4 * i;
    big_endian::signed(&bytes[at..at + 4])
}

// The least code with a width index for which there is no width.
fn index_fault(bytes: &[u8], layout: &Layout) -> Option<TfmFault>
    requires { IsLayoutOf layout.now bytes.now }
    ensures { result ≡ index_fault bytes.now }
{
    for i in 0..layout.codes {
        if width_index(bytes, layout, i) >= layout.count {
            return Some(TfmFault::WidthIndex((layout.first + i) as u8));
        }
    }
    None
}

// Whether the first byte of a width is neither 0 nor 255.
fn is_wrong(bytes: &[u8], layout: &Layout, i: usize) -> bool
    requires places { IsLayoutOf layout.now bytes.now }
    requires inside { i < layout.now.count }
    ensures { result ≡ is_width_byte_wrong bytes.now i }
{
    let byte = bytes[layout.widths + 4 * i];
    byte != 0 && byte != 255
}

// The least width from 1 on that is too large.
fn byte_fault(bytes: &[u8], layout: &Layout) -> Option<TfmFault>
    requires { IsLayoutOf layout.now bytes.now }
    ensures { result ≡ byte_fault bytes.now }
{
    for i in 1..layout.count {
        if is_wrong(bytes, layout, i) {
            return Some(TfmFault::WidthByte(i as u16));
        }
    }
    None
}

/// What is wrong with the tables.
pub fn judge_tables(bytes: &[u8], layout: &Layout) -> Result<(), TfmFault>
    requires { IsLayoutOf layout.now bytes.now }
    ensures { MatchResult result (λ _. tables_fault bytes.now ≡ None)
        (λ fault. tables_fault bytes.now ≡ Some fault) }
{
    if let Some(fault) = index_fault(bytes, layout) {
        return Err(fault);
    }
    if is_wrong(bytes, layout, 0) {
        return Err(TfmFault::WidthByte(0));
    }
    if width_word(bytes, layout, 0) != 0 {
        return Err(TfmFault::WidthZero);
    }
    match byte_fault(bytes, layout) {
        Some(fault) => Err(fault),
        None => Ok(()),
    }
}

/// The width of a code.
pub fn width(bytes: &[u8], layout: &Layout, code: usize) -> Option<i32>
    requires places { IsLayoutOf layout.now bytes.now }
    requires right { tables_fault bytes.now ≡ None }
    ensures width { result ≡ tfm_width bytes.now (pos code) }
    ensures fits { IfSome result IsFixWord }
{
    if code < layout.first || code - layout.first >= layout.codes {
        return None;
    }
    let index = width_index(bytes, layout, code - layout.first);
    if index == 0 {
        return None;
    }
    Some(width_word(bytes, layout, index))
}
