//! The lines of what a page lacks, and the line of a run's end.
ghost use Rattle.std.specs.Prelude.{[]};
ghost use Rattle.outside.specs.Streams.{Writes};
ghost use Rattle.vf_expand.specs.Faults.{value_of_fault};
ghost use Rattle.page_draw.specs.Lacks.{value_of_lack, values_of};
ghost use Rattle.run_report.specs.Puts.{Puts};
ghost use Rattle.dvi_run.specs.Endings.{value_of_ending};
ghost use Rattle.dvi_run.specs.Lines.{document_line, lack_line, lack_lines, line_of, output_line, page_line, place_text, source_line};

use crate::ending::Ending;
use crate::texts::document::{doc_name, place};
use crate::texts::name::put_name;
use crate::texts::page::put_fault;
use outside::{Failed, Gather, Output};
use page_index::DocFault;
use run_report::puts::{put, put_number};
use std::alloc::Global;
use vf_expand::{Lack, PageFault};

// Puts the line of a document's fault.
fn put_document<N: Output>(gather: &mut Gather, notes: &mut N, fault: &DocFault)
    ensures { Puts gather.old gather.new (N.written notes.old) (N.written notes.new)
        (N.faults notes.old) (N.faults notes.new) (document_line fault.now) }
{
    put(gather, notes, b"dvipbm: document: ");
    put_name(gather, notes, &doc_name(fault));
    put(gather, notes, b" at ");
    put_number(gather, notes, place(fault));
    put(gather, notes, b"\n");
}

// A command of a page, counted from 1, by its position in the file.
#[derive(Clone, Copy, Debug)]
struct PagePlace {
    page: usize,
    at: usize,
}

// Puts where on a page something is.
fn put_place<N: Output>(gather: &mut Gather, notes: &mut N, place: PagePlace)
    ensures { Puts gather.old gather.new (N.written notes.old) (N.written notes.new)
        (N.faults notes.old) (N.faults notes.new) (place_text place.page place.at) }
{
    put(gather, notes, b"dvipbm: page ");
    put_number(gather, notes, place.page);
    put(gather, notes, b" at ");
    put_number(gather, notes, place.at);
    put(gather, notes, b": ");
}

// Puts the line of what a page lacks.
fn put_lack<N: Output>(gather: &mut Gather, notes: &mut N, page: usize, lack: &Lack)
    ensures { Puts gather.old gather.new (N.written notes.old) (N.written notes.new)
        (N.faults notes.old) (N.faults notes.new) (lack_line page (value_of_lack lack.now)) }
{
    put_place(gather, notes, PagePlace { page, at: lack.at });
    put(gather, notes, b"tolerated ");
    put_fault(gather, notes, &lack.fault);
    put(gather, notes, b"\n");
}

// Puts the line of each lack of a page.
fn put_lacks<N: Output>(gather: &mut Gather, notes: &mut N, page: usize, lacks: &[Lack])
    ensures { Puts gather.old gather.new (N.written notes.old) (N.written notes.new)
        (N.faults notes.old) (N.faults notes.new) (lack_lines page (values_of lacks.now)) }
{
    for lack in lacks {
        put_lack(gather, notes, page, lack);
    }
}

/// Prints the line of each lack of a page, which is counted from 1.
pub fn print_lacks<N: Output>(
    alloc: Global,
    notes: &mut N,
    page: usize,
    lacks: &[Lack],
) -> Result<(), Failed>
    ensures { Writes (N.written notes.old) (N.written notes.new) (N.faults notes.old)
        (N.faults notes.new) (lack_lines page (values_of lacks.now)) result }
{
    let mut gather = Gather::new(alloc);
    put_lacks(&mut gather, notes, page, lacks);
    gather.finish(notes)
}

// Puts the line of a page that fails at the command with this position.
fn put_page<N: Output>(
    gather: &mut Gather,
    notes: &mut N,
    page: usize,
    fault: &PageFault,
    at: usize,
)
    ensures { Puts gather.old gather.new (N.written notes.old) (N.written notes.new)
        (N.faults notes.old) (N.faults notes.new)
        (page_line (record { page = page; fault = value_of_fault fault.now; at = at })) }
{
    put_place(gather, notes, PagePlace { page, at });
    put_fault(gather, notes, fault);
    put(gather, notes, b"\n");
}

// Puts the line of a page that the source of the fonts failed at.
fn put_source<N: Output>(gather: &mut Gather, notes: &mut N, page: usize)
    ensures { Puts gather.old gather.new (N.written notes.old) (N.written notes.new)
        (N.faults notes.old) (N.faults notes.new) (source_line page) }
{
    put(gather, notes, b"dvipbm: page ");
    put_number(gather, notes, page);
    put(gather, notes, b": font source failed\n");
}

// Puts the line of a page that the output failed at.
fn put_output<N: Output>(gather: &mut Gather, notes: &mut N, page: usize)
    ensures { Puts gather.old gather.new (N.written notes.old) (N.written notes.new)
        (N.faults notes.old) (N.faults notes.new) (output_line page) }
{
    put(gather, notes, b"dvipbm: page ");
    put_number(gather, notes, page);
    put(gather, notes, b": output failed\n");
}

// Puts nothing.
fn put_none<N: Output>(gather: &mut Gather, notes: &mut N)
    ensures { Puts gather.old gather.new (N.written notes.old) (N.written notes.new)
        (N.faults notes.old) (N.faults notes.new) [] }
{
    put(gather, notes, b"");
}

/// Puts the line of a run's end.
pub fn put_end<N: Output>(gather: &mut Gather, notes: &mut N, ending: &Ending)
    ensures { Puts gather.old gather.new (N.written notes.old) (N.written notes.new)
        (N.faults notes.old) (N.faults notes.new) (line_of (value_of_ending ending.now)) }
{
    match ending {
        Ending::Written => put_none(gather, notes),
        Ending::Usage => put(gather, notes, b"dvipbm: usage\n"),
        Ending::Document(fault) => put_document(gather, notes, fault),
        Ending::Page { page, fault, at } => put_page(gather, notes, *page, fault, *at),
        Ending::Source(page) => put_source(gather, notes, *page),
        Ending::Input => put(gather, notes, b"dvipbm: input failed\n"),
        Ending::Output(page) => put_output(gather, notes, *page),
        Ending::Memory => put(gather, notes, b"dvipbm: out of memory\n"),
    }
}
