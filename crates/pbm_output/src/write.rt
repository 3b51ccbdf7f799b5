//! The text of a page, written to an output.

ghost use Rattle.std.specs.Prelude.{◌≡◌, ◌++◌, ℕ, List, [], Option, IfSome};
ghost use Rattle.std.specs.List.{flat_map};
ghost use Rattle.outside.specs.Streams.{Writes};
ghost use Rattle.outside.specs.Gather.{Gathers};
ghost use Rattle.packed_rows.specs.Packing.{row_text};
ghost use Rattle.pbm_output.specs.Pbm.{page_text};
ghost use Rattle.pbm_output.specs.Pieces.{IsPut};

use outside::{Failed, Gather, Output, PIECE};
use raster_page::Page;
use std::alloc::Global;

// The rows of a page of at most so many bytes are gathered one by one: memory for a piece would be
// taken and given back with each page.
const SMALL: usize = PIECE / 2;

/// The output failed. What it took before is a prefix of the page's text, and not all of it.
#[derive(Clone, Copy, Debug, PartialEq, Eq, thiserror::Error)]
#[error("the output failed")]
pub struct WriteFault;

impl From<Failed> for WriteFault {
    fn from(_: Failed) -> WriteFault {
        WriteFault
    }
}

/// Writes the page as a PBM file in its raw form (P4), each row by a write of its own where padding
/// stands between rows. Takes no memory.
pub fn write_page<O: Output>(out: &mut O, page: &Page) -> Result<(), WriteFault>
    ensures { Writes (O.written out.old) (O.written out.new) (O.faults out.old) (O.faults out.new)
        (page_text page.now) result }
{
    write_by(Gather::without_memory(), None, out, page)
}

/// Writes the page as `write_page` does, by few large writes: rows are joined on memory that is
/// freed at the end. Where there is none, each row is a write of its own.
pub fn write_page_gathered<O: Output>(
    alloc: Global,
    out: &mut O,
    page: &Page,
) -> Result<(), WriteFault>
    ensures { Writes (O.written out.old) (O.written out.new) (O.faults out.old) (O.faults out.new)
        (page_text page.now) result }
{
    let row = page.width() as usize / 8 + 1;
    let piece = if row.saturating_mul(page.height() as usize) <= SMALL {
        None
    } else {
        Vec::with_capacity(alloc, PIECE + row).ok()
    };
    write_by(Gather::new(alloc), piece, out, page)
}

// Writes the page by a gather to which nothing was put, and a piece for rows where there is one.
fn write_by<O: Output>(
    mut gather: Gather,
    piece: Option<Vec<u8>>,
    out: &mut O,
    page: &Page,
) -> Result<(), WriteFault>
    requires nothing { (written : Option (List ℕ)) (faults : ℕ)
        → Gathers written faults gather written faults [] }
    requires empty { IfSome piece (λ p. p.items ≡ []) }
    ensures { Writes (O.written out.old) (O.written out.new) (O.faults out.old) (O.faults out.new)
        (page_text page.now) result }
{
    let mut number = itoa::Buffer::new();
    gather.put(out, b"P4\n");
    gather.put(out, number.format(page.width()).as_bytes());
    gather.put(out, b" ");
    gather.put(out, number.format(page.height()).as_bytes());
    gather.put(out, b"\n");
    put_rows(out, &mut gather, piece, page);
    gather.finish(out)?;
    Ok(())
}

// Puts the rows: in one piece where no padding stands between them, else joined into large pieces,
// or one by one where there is no memory for a piece.
fn put_rows<O: Output>(out: &mut O, gather: &mut Gather, piece: Option<Vec<u8>>, page: &Page)
    requires { IfSome piece (λ p. p.items ≡ []) }
    ensures { (start : Option (List ℕ)) (before : ℕ) (text : List ℕ)
        → Gathers start before gather.old (O.written out.old) (O.faults out.old) text
        → Gathers start before gather.new (O.written out.new) (O.faults out.new)
        (text ++ flat_map row_text page.now.rows) }
{
    if let Some(rows) = page.rows() {
        gather.put(out, rows);
        return;
    }
    match piece {
        Some(mut piece) => put_joined(out, gather, &mut piece, page),
        None => put_each(out, gather, page),
    }
}

// Puts each row by itself.
fn put_each<O: Output>(out: &mut O, gather: &mut Gather, page: &Page)
    ensures { (start : Option (List ℕ)) (before : ℕ) (text : List ℕ)
        → Gathers start before gather.old (O.written out.old) (O.faults out.old) text
        → Gathers start before gather.new (O.written out.new) (O.faults out.new)
        (text ++ flat_map row_text page.now.rows) }
{
    for y in 0..page.height() {
        gather.put(out, page.row(y));
    }
}

// Puts the rows joined into pieces. A piece is longer than what is gathered, so it is written as it
// is, and no byte of it is copied twice.
fn put_joined<O: Output>(out: &mut O, gather: &mut Gather, piece: &mut Vec<u8>, page: &Page)
    requires { piece.old.items ≡ [] }
    ensures { (start : Option (List ℕ)) (before : ℕ) (text : List ℕ)
        → Gathers start before gather.old (O.written out.old) (O.faults out.old) text
        → Gathers start before gather.new (O.written out.new) (O.faults out.new)
        (text ++ flat_map row_text page.now.rows) }
{
    for y in 0..page.height() {
        join(out, gather, piece, page.row(y));
    }
    gather.put(out, piece);
}

// Joins a row to the piece, which is put where it is long enough, or where it has no room and there
// is no memory for more.
#[inline(always)]
fn join<O: Output>(out: &mut O, gather: &mut Gather, piece: &mut Vec<u8>, row: &[u8])
    ensures { (start : Option (List ℕ)) (before : ℕ) (text : List ℕ)
        → IsPut start before gather.old (O.written out.old) (O.faults out.old) piece.old.items text
        → IsPut start before gather.new (O.written out.new) (O.faults out.new) piece.new.items
        (text ++ row.now) }
{
    match piece.extend_from_slice(row) {
        Ok(_) => {
            if piece.len() > PIECE {
                put_piece(out, gather, piece);
            }
        }
        Err(_) => {
            put_piece(out, gather, piece);
            gather.put(out, row);
        }
    }
}

// Puts the piece, and empties it.
#[inline(never)]
fn put_piece<O: Output>(out: &mut O, gather: &mut Gather, piece: &mut Vec<u8>)
    ensures put { (start : Option (List ℕ)) (before : ℕ) (text longer : List ℕ)
        → Gathers start before gather.old (O.written out.old) (O.faults out.old) text
        → longer ≡ text ++ piece.old.items
        → Gathers start before gather.new (O.written out.new) (O.faults out.new) longer }
    ensures empty { piece.new.items ≡ [] }
{
    gather.put(out, piece);
    piece.clear();
}
