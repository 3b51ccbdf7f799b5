//! Bytes as text, so that no two lists of bytes have the same one.

use std::alloc::{AllocError as NoMemory, Global};
use std::str;

// Adds bytes as quoted text.
fn add_quoted(alloc: Global, text: &mut String, bytes: &[u8]) -> Result<(), NoMemory> {
    let part = match str::from_utf8(bytes) {
        Ok(words) => format!(in alloc; "{words:?}")?,
        Err(_) => format!(in alloc; "{bytes:?}")?,
    };
    text.push_str(&part)
}

/// Adds notes: all of them, or only so many of their first and of their last bytes.
pub fn add_notes(
    alloc: Global,
    text: &mut String,
    notes: &[u8],
    ends: &[u64],
) -> Result<(), NoMemory> {
    let (Some(first), Some(last)) = (ends.first(), ends.last()) else {
        return add_quoted(alloc, text, notes);
    };
    let begin = notes.len().min(*first as usize);
    let end = notes.len().saturating_sub(*last as usize);
    add_quoted(alloc, text, &notes[..begin])?;
    text.push_str(" .. ")?;
    add_quoted(alloc, text, &notes[end..])
}

// Adds a byte in hex, with the number of times that it stands there, if it isn't 1.
fn add_run(alloc: Global, text: &mut String, byte: u8, times: u64) -> Result<(), NoMemory> {
    let part = match times {
        0 => return Ok(()),
        1 => format!(in alloc; " {byte:02x}")?,
        _ => format!(in alloc; " {byte:02x}*{times}")?,
    };
    text.push_str(&part)
}

// Adds bytes in hex, equal ones in a row as one with their number.
fn add_runs(alloc: Global, text: &mut String, bytes: &[u8]) -> Result<(), NoMemory> {
    let (mut last, mut times) = (0u8, 0u64);
    for byte in bytes {
        if *byte != last {
            add_run(alloc, text, last, times)?;
            times = 0;
        }
        last = *byte;
        times = times.wrapping_add(1);
    }
    add_run(alloc, text, last, times)
}

// The width and the height that stand at the head of a bitmap, between `P4` and the rows.
fn head_of(bytes: &[u8]) -> Option<&str> {
    let rest = bytes.strip_prefix(b"P4\n")?;
    let end = rest.iter().position(|byte| *byte == b'\n')?;
    str::from_utf8(&rest[..end]).ok()
}

// How many bytes a bitmap with this head has in all.
fn length_of(head: &str) -> Option<usize> {
    let (width, height) = head.split_once(' ')?;
    let width = width.parse::<usize>().ok()?;
    let height = height.parse::<usize>().ok()?;
    width
        .div_ceil(8)
        .checked_mul(height)?
        .checked_add(4)?
        .checked_add(head.len())
}

// The bitmaps that stand one after another, the last of which may be cut off.
fn pages_of(alloc: Global, bytes: &[u8]) -> Result<Vec<&[u8]>, NoMemory> {
    let mut pages = Vec::new(alloc);
    let mut rest = bytes;
    for _ in 0..bytes.len() {
        let length = head_of(rest).and_then(|head| length_of(head));
        let (page, others) = rest.split_at(length.unwrap_or(rest.len()).min(rest.len()));
        pages.push(page)?;
        rest = others;
        if rest.is_empty() {
            return Ok(pages);
        }
    }
    Ok(pages)
}

// Adds a page: `P4`, its width and height, and the bytes of its rows; or its bytes, where it has no
// whole head.
fn add_page(alloc: Global, text: &mut String, page: &[u8]) -> Result<(), NoMemory> {
    let Some(head) = head_of(page) else {
        return add_runs(alloc, text, page);
    };
    let part = format!(in alloc; " P4 {head}")?;
    text.push_str(&part)?;
    let rows = head.len().saturating_add(4).min(page.len());
    add_runs(alloc, text, &page[rows..])
}

// The place of the first page that is equal to this one.
fn place_of(pages: &[&[u8]], page: &[u8]) -> usize {
    for (i, other) in pages.iter().enumerate() {
        if *other == page {
            return i;
        }
    }
    pages.len()
}

/// Adds the pages that were written, one that is equal to an earlier one by its number.
pub fn add_pages(alloc: Global, text: &mut String, bytes: &[u8]) -> Result<(), NoMemory> {
    if bytes.is_empty() {
        return Ok(());
    }
    text.push(':')?;
    let pages = pages_of(alloc, bytes)?;
    for (i, page) in pages.iter().enumerate() {
        let first = place_of(&pages, page);
        if first < i {
            let part = format!(in alloc; " ={}", first.wrapping_add(1))?;
            text.push_str(&part)?;
        } else {
            add_page(alloc, text, page)?;
        }
    }
    Ok(())
}
