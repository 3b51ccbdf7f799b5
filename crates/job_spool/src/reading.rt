//! All inputs are read and indexed, before the first page is drawn.
ghost use Rattle.std.specs.Prelude.{◌≡◌, ◌≤◌, ◌<◌, ℕ, None, IfOk, OnErr, length, slice_index_or};
ghost use Rattle.pixel_round.specs.Limits.{MAX_RESOLUTION};
ghost use Rattle.job_spool.specs.Read.{HasText, IsIndexed, text_at, text_of};
ghost use Rattle.job_spool.specs.Sharing.{document_at};

use crate::job::Job;
use dvi_run::{ReadStop, read_all};
use outside::{Input, Output};
use page_index::{Index, IndexStop, MAX_PAGES};
use std::alloc::{AllocError as NoMemory, Global};

// The status of a job until it is drawn, and after that of one for which memory ran out.
const NO_MEMORY: u8 = 9;

const NO_DOCUMENT: u8 = 2;

const INPUT_FAILED: u8 = 6;

// No job has been drawn.
fn begin<I, O>(jobs: &mut [Job<I, O>])
    ensures { (k : ℕ) (d : _) → k < length jobs.old
        → slice_index_or jobs.new k d ≡ record (slice_index_or jobs.old k d) { status = 9 } }
{
    for k in 0..jobs.len() {
        let job = &mut jobs[k];
        job.status = NO_MEMORY;
    }
}

// All that a job's input has, where it can be read.
fn read_one<I: Input, O: Output>(alloc: Global, job: &mut Job<I, O>) -> Option<Vec<u8>>
    requires { job.old.status ≡ 9 }
    ensures { HasText (record {
      left = I.left;
      taken = I.taken;
      ended = I.ended;
      reads = I.faults;
      written = O.written;
      writes = O.faults;
    }) (text_of result) job.old job.new }
{
    match read_all(alloc, &mut job.input) {
        Ok(bytes) => Some(bytes),
        Err(ReadStop::Failed) => {
            job.status = INPUT_FAILED;
            None
        }
        Err(ReadStop::NoMemory) => None,
    }
}

/// What the inputs of all jobs have, in their order, of each one that can be read. A job whose
/// input fails has then ended with 6.
pub fn read_inputs<I: Input, O: Output>(
    alloc: Global,
    jobs: &mut [Job<I, O>],
) -> Result<Vec<Option<Vec<u8>>>, NoMemory>
    ensures count { IfOk result (λ texts. length texts.items ≡ length jobs.old) }
    ensures texts { IfOk result (λ texts. (k : ℕ) (d : _) → k < length jobs.old
        → HasText (record {
          left = I.left;
          taken = I.taken;
          ended = I.ended;
          reads = I.faults;
          written = O.written;
          writes = O.faults;
        }) (text_at texts.items k) (slice_index_or jobs.old k d)
        (slice_index_or jobs.new k d)) }
    ensures refused { OnErr result ((k : ℕ) (d : _) → k < length jobs.old
        → HasText (record {
          left = I.left;
          taken = I.taken;
          ended = I.ended;
          reads = I.faults;
          written = O.written;
          writes = O.faults;
        }) None (slice_index_or jobs.old k d) (slice_index_or jobs.new k d)) }
{
    begin(jobs);
    let mut texts = Vec::new(alloc);
    for k in 0..jobs.len() {
        let text = read_one(alloc, &mut jobs[k]);
        texts.push(text)?;
    }
    Ok(texts)
}

// The pages of a job's text, where that is a document.
fn index_one<'a, I, O>(
    alloc: Global,
    res: u32,
    text: &'a Option<Vec<u8>>,
    job: &mut Job<I, O>,
) -> Option<Index<'a>>
    requires some { 1 ≤ res }
    requires fine { res ≤ MAX_RESOLUTION }
    ensures { IsIndexed res (text_of text.now) result job.old job.new }
{
    let Some(bytes) = text else {
        return None;
    };
    match Index::read(alloc, bytes.as_slice(), res) {
        Ok(index) => {
            // For the proof: a document has no more pages.
            prove!(index.pages() <= MAX_PAGES);
            Some(index)
        }
        Err(IndexStop::Fault(_)) => {
            job.status = NO_DOCUMENT;
            None
        }
        Err(IndexStop::NoMemory) => None,
    }
}

/// The pages of each job's text, where that is a document. A job whose text is none has then ended
/// with 2.
pub fn index_texts<'a, I, O>(
    alloc: Global,
    res: u32,
    texts: &'a [Option<Vec<u8>>],
    jobs: &mut [Job<I, O>],
) -> Result<Vec<Option<Index<'a>>>, NoMemory>
    requires some { 1 ≤ res }
    requires fine { res ≤ MAX_RESOLUTION }
    requires count { length texts.now ≡ length jobs.old }
    ensures count { IfOk result (λ documents. length documents.items ≡ length jobs.old) }
    ensures documents { IfOk result (λ documents. (k : ℕ) (d : _) → k < length jobs.old
        → IsIndexed res (text_at texts.now k) (document_at documents.items k)
        (slice_index_or jobs.old k d) (slice_index_or jobs.new k d)) }
    ensures refused { OnErr result ((k : ℕ) (d : _) → k < length jobs.old
        → IsIndexed res (text_at texts.now k) None (slice_index_or jobs.old k d)
        (slice_index_or jobs.new k d)) }
{
    let mut documents = Vec::new(alloc);
    for k in 0..texts.len() {
        let document = index_one(alloc, res, &texts[k], &mut jobs[k]);
        documents.push(document)?;
    }
    Ok(documents)
}
