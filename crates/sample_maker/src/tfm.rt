//! TFM files of given widths (Knuth, TFtoPL, "Font metric data").
ghost use Rattle.std.specs.Prelude.{◌≡◌, ℤ, ◌≤◌, ◌<◌, ◌++◌, IfOk, IsTrue, OnOk, length};
ghost use Rattle.std.specs.List.{AllByRecursion, flat_map, range_with_len};
ghost use Rattle.fix_word.specs.FixWords.{IsFixWord};
ghost use Rattle.tfm_reader.specs.Right.{IsTfm};
ghost use Rattle.tfm_reader.specs.Tfm.{tfm_width};
ghost use Rattle.sample_maker.specs.TfmFile.{are_rising, code_at as code_of, codes_of, tfm_counts, first_code, index_word, last_code, place_from, tfm_file, two, width_given, word};

use std::alloc::{AllocError as NoMemory, Global};

// The code of the i-th pair.
fn code_at(widths: &[(u8, i32)], i: usize) -> u8
    requires { i < length widths.now }
    ensures code { result ≡ code_of widths.now i }
    ensures fits { result < 256 }
{
    widths[i].0
}

// The place of the pair with this code, from 1, or 0 where no pair has it.
fn width_index(widths: &[(u8, i32)], code: u8) -> u8
    requires { length widths.now ≤ 255 }
    ensures { result ≡ place_from 1 widths.now code }
{
    for (i, width) in widths.iter().enumerate() {
        if width.0 == code {
            return i as u8 + 1;
        }
    }
    0
}

// lf, lh, bc, ec, nw, nh, nd, ni, nl, nk, ne, np.
fn counts(widths: &[(u8, i32)]) -> [u16; 12]
    requires some { 1 ≤ length widths.now }
    requires few { length widths.now ≤ 255 }
    requires rising { IsTrue (are_rising widths.now) }
    ensures counts { result ≡ tfm_counts widths.now }
    ensures top { last_code widths.now < 256 }
{
    let first = u16::from(code_at(widths, 0));
    let last = u16::from(code_at(widths, widths.len() - 1));
    let codes = last + 1 - first;
    let count = widths.len() as u16 + 1;
    [
        6 + 2 + codes + count + 3,
        2,
        first,
        last,
        count,
        1,
        1,
        1,
        0,
        0,
        0,
        0,
    ]
}

// Appends numbers of two bytes.
fn append_counts(out: &mut Vec<u8>, counts: &[u16]) -> Result<(), NoMemory>
    ensures { OnOk result (out.new.items ≡ out.old.items ++ flat_map two counts.now) }
{
    for count in counts {
        out.extend_from_slice(&count.to_be_bytes())?;
    }
    Ok(())
}

// Appends a word of char_info for each code from the first to the last.
fn append_indices(out: &mut Vec<u8>, widths: &[(u8, i32)]) -> Result<(), NoMemory>
    requires some { 1 ≤ length widths.now }
    requires few { length widths.now ≤ 255 }
    requires rising { IsTrue (are_rising widths.now) }
    ensures { OnOk result (out.new.items ≡ out.old.items
        ++ flat_map (index_word widths.now)
        (range_with_len (first_code widths.now) (codes_of widths.now))) }
{
    let first = usize::from(code_at(widths, 0));
    let last = usize::from(code_at(widths, widths.len() - 1));
    for i in 0..last + 1 - first {
        let index = width_index(widths, (first + i) as u8);
        out.extend_from_slice(&[index, 0, 0, 0])?;
    }
    Ok(())
}

// Appends the widths.
fn append_widths(out: &mut Vec<u8>, widths: &[(u8, i32)]) -> Result<(), NoMemory>
    ensures { OnOk result
        (out.new.items ≡ out.old.items ++ flat_map (λ pair. word pair.1) widths.now) }
{
    for width in widths {
        out.extend_from_slice(&width.1.to_be_bytes())?;
    }
    Ok(())
}

/// A TFM file in which each of these codes has its width, a fix_word in units of 2^-20 of the size,
/// and no other code has one. The codes are in rising order, 1 to 255 of them. Its height, depth
/// and italic correction are 0, and its design size is 10 points.
///
/// `NoMemory` when out of memory.
pub fn tfm_bytes(alloc: Global, widths: &[(u8, i32)]) -> Result<Vec<u8>, NoMemory>
    requires some { 1 ≤ length widths.now }
    requires few { length widths.now ≤ 255 }
    requires rising { IsTrue (are_rising widths.now) }
    requires fit { AllByRecursion (λ pair. IsFixWord pair.1) widths.now }
    ensures bytes { IfOk result (λ bytes. bytes.items ≡ tfm_file widths.now) }
    ensures sound { IfOk result (λ bytes. IsTfm bytes.items) }
    ensures read_again { IfOk result
        (λ bytes. (c : ℤ) → tfm_width bytes.items c ≡ width_given widths.now c) }
{
    let counts = counts(widths);
    let mut bytes = Vec::new(alloc);
    append_counts(&mut bytes, &counts)?;
    bytes.extend_from_slice(&[0, 0, 0, 0, 0, 160, 0, 0])?;
    append_indices(&mut bytes, widths)?;
    bytes.extend_from_slice(&[0, 0, 0, 0])?;
    append_widths(&mut bytes, widths)?;
    bytes.extend_from_slice(&[0; 12])?;
    Ok(bytes)
}
