//! Rows that lie side by side.

ghost use Rattle.std.specs.Prelude.{◌≡◌, ℕ, ◌+◌, ◌*◌, ◌^◌, ◌<◌, ◌≤◌, ◌&&◌, ◌||◌, ◌++◌, length, take, drop, if◌then◌else◌};
ghost use Rattle.packed_rows.specs.Packing.{pixel, IsPadded};
ghost use Rattle.packed_rows.specs.Changes.{is_within};
ghost use Rattle.packed_rows.specs.Stored.{row_at};

use crate::row::blacken;

/// The places from `from` up to but not including `until`.
#[derive(Clone, Copy)]
pub struct Span {
    pub from: usize,
    pub until: usize,
}

// Makes the pixels of some columns black in some rows, each of `stride` bytes.
pub(crate) fn blacken_bytes(bytes: &mut [u8], stride: usize, columns: Span, rows: Span)
    requires small { stride < 2 ^ 20 }
    requires few { rows.until < 2 ^ 20 }
    requires ordered { columns.from ≤ columns.until }
    requires turned { rows.from ≤ rows.until }
    requires inside { columns.until ≤ 8 * stride }
    requires whole { rows.until * stride ≤ length bytes.old }
    ensures len { length bytes.new ≡ length bytes.old }
    ensures dots { (x y : ℕ) → x < 8 * stride → y * stride + stride ≤ length bytes.old →
        pixel (row_at stride bytes.new y) x ≡
        (is_within columns.from columns.until x && is_within rows.from rows.until y
        || pixel (row_at stride bytes.old y) x) }
    ensures padded { (width y : ℕ) → columns.until ≤ width →
        y * stride + stride ≤ length bytes.old →
        IsPadded width (row_at stride bytes.old y) → IsPadded width (row_at stride bytes.new y) }
{
    for y in rows.from..rows.until {
        let start = y * stride;
        blacken(
            &mut bytes[start..start + stride],
            columns.from,
            columns.until,
        );
    }
}

// Copies the first of some rows over the others.
pub(crate) fn copy_rows(bytes: &mut [u8], stride: usize, rows: Span)
    requires small { stride < 2 ^ 20 }
    requires few { rows.until ≤ 2 ^ 20 }
    requires some { rows.from < rows.until }
    requires whole { rows.until * stride ≤ length bytes.old }
    ensures len { length bytes.new ≡ length bytes.old }
    ensures rows { (r : ℕ) → r * stride + stride ≤ length bytes.old →
        row_at stride bytes.new r ≡ row_at stride bytes.old
        (if is_within (rows.from + 1) rows.until r then rows.from else r) }
{
    for to in rows.from + 1..rows.until {
        let copied = Span {
            from: rows.from,
            until: to,
        };
        copy_row(bytes, stride, copied);
    }
}

// Copies the row at which a span begins over the one at its end.
fn copy_row(bytes: &mut [u8], stride: usize, span: Span)
    requires small { stride < 2 ^ 20 }
    requires few { span.until < 2 ^ 20 }
    requires below { span.from < span.until }
    requires whole { span.until * stride + stride ≤ length bytes.old }
    ensures { bytes.new ≡ take (span.until * stride) bytes.old
        ++ (row_at stride bytes.old span.from
        ++ drop stride (drop (span.until * stride) bytes.old)) }
{
    let (above, below) = bytes.split_at_mut(span.until * stride);
    let start = span.from * stride;
    below[..stride].copy_from_slice(&above[start..start + stride]);
}
