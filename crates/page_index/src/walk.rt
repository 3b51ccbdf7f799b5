//! The walk over a document's commands.
ghost use Rattle.std.specs.Prelude.{◌≡◌, ◌<◌, ◌≤◌, IfErr, OnOk, None, drop, false, length, true};
ghost use Rattle.dvi_commands.specs.Spelling.{Define, value_of_command, value_of_definition};
ghost use Rattle.dvi_commands.specs.declared.command.Context.TheVariants as context;
ghost use Rattle.page_index.specs.declared.preamble.Scaled.{Scaled};
ghost use Rattle.page_index.specs.Judged.{postpost_fault};
ghost use Rattle.page_index.specs.Faults.{IsStopFor, as_doc_fault, is_postpost_at};
ghost use Rattle.page_index.specs.Walked.{ArePassed, BeginsNoSkippable, EarlyFault, IsBegun, IsReadTo, fonts_after, pages_after, progress_after};

use crate::faults::{DocFault, IndexStop};
use crate::fonts::{FontTable, key};
use crate::preamble::Scaled;
use crate::progress::{PageSpan, Progress};
use crate::trailer;
use dvi_commands::{Command, CommandFault, Context, FontDef, end_of_skippable, read_command};
use std::alloc::{AllocError as NoMemory, Global};

const POSTPOST: u8 = 249;

/// The pages and fonts that were read so far, and how far that is.
#[derive(Drop)]
pub struct Walk {
    pub progress: Progress,
    pub pages: Vec<PageSpan>,
    pub fonts: FontTable,
}

// The fault that stands for a refusal at a place.
#[inline(never)]
fn doc_fault(fault: CommandFault, bytes: &[u8], at: usize) -> DocFault
    requires { at ≤ length bytes.now }
    ensures { result ≡ as_doc_fault at (drop at bytes.now) fault }
{
    match fault {
        CommandFault::Short => DocFault::Truncated { at: bytes.len() },
        CommandFault::Undefined(_) | CommandFault::Misplaced(_) | CommandFault::NegativeLength =>
            DocFault::Command { fault, at },
    }
}

// Judges what is judged before a command is whole: the fields of PostPost.
#[inline(always)]
fn judge_early(
    bytes: &[u8],
    at: usize,
    context: Context,
    post: Option<usize>,
) -> Result<(), DocFault>
    requires { at ≤ length bytes.now }
    ensures postpost { OnOk result (is_postpost_at context (drop at bytes.now) ≡ true
        → postpost_fault post at (drop at bytes.now) ≡ None) }
    ensures fault { IfErr result (λ fault. EarlyFault context post at (drop at bytes.now) fault) }
{
    let Some(&opcode) = bytes.get(at) else {
        return Ok(());
    };
    match context {
        Context::Post if opcode == POSTPOST => trailer::judge_trailer(bytes, at, post),
        _ => Ok(()),
    }
}

// The place after the commands there that can be skipped unread, one after another: most of a
// page's.
fn after_skippable(bytes: &[u8], at: usize) -> usize
    requires { at ≤ length bytes.now }
    ensures passed { ArePassed bytes.now at result }
    ensures all { BeginsNoSkippable (drop result bytes.now) }
{
    let mut end = at;
    while let Some(next) = end_of_skippable(bytes, end) {
        end = next;
    }
    end
}

impl Walk {
    /// After a preamble that was judged.
    pub fn begin(alloc: Global, bytes: &[u8], first: &Scaled) -> Walk
        requires { IsBegun bytes.now first.now }
        ensures { IsReadTo bytes.now first.now result.progress result.pages.items result.fonts }
    {
        let next = match read_command(bytes, 0, Context::Start) {
            Ok((_, next)) => next,
            Err(_) => unreachable!(),
        };
        Walk {
            progress: Progress::after_preamble(next),
            pages: Vec::new(alloc),
            fonts: FontTable::new(alloc),
        }
    }

    // Keeps a definition, unless the number has one.
    #[inline(never)]
    fn define(&mut self, alloc: Global, def: &FontDef) -> Result<(), NoMemory>
        ensures fonts { OnOk result (self.new.fonts ≡ fonts_after self.old.fonts
            (Define (value_of_definition def.now))) }
        ensures progress { self.new.progress ≡ self.old.progress }
        ensures pages { self.new.pages ≡ self.old.pages }
    {
        if self.fonts.get(def.number).is_none() {
            self.fonts.add(def.number, key(alloc, def)?)?;
        }
        Ok(())
    }

    // Keeps what a command says of pages and fonts.
    #[inline(always)]
    fn keep(&mut self, alloc: Global, command: &Command) -> Result<(), NoMemory>
        ensures progress { self.new.progress ≡ self.old.progress }
        ensures pages { OnOk result
            (self.new.pages.items ≡ pages_after self.old.progress self.old.pages.items
            (value_of_command command.now)) }
        ensures fonts { OnOk result
            (self.new.fonts ≡ fonts_after self.old.fonts (value_of_command command.now)) }
    {
        match command {
            Command::Define(def) => self.define(alloc, def),
            Command::Eop => {
                self.pages.push(PageSpan {
                    start: self.progress.start,
                    end: self.progress.at,
                })?;
                Ok(())
            }
            _ => Ok(()),
        }
    }

    /// Skips the commands of a page that change nothing but the place.
    pub fn pass_skippable(&mut self, bytes: &[u8])
        requires inside { self.old.progress.at ≤ length bytes.now }
        requires going { self.old.progress.is_ended ≡ false }
        ensures read { (first : Scaled)
            → IsReadTo bytes.now first self.old.progress self.old.pages.items self.old.fonts
            → IsReadTo bytes.now first self.new.progress self.new.pages.items self.new.fonts }
        ensures going { self.new.progress.is_ended ≡ false }
        ensures back { self.old.progress.at ≤ self.new.progress.at }
        ensures all { self.new.progress.context ≡ context.Page
            → BeginsNoSkippable (drop self.new.progress.at bytes.now) }
    {
        if let Context::Page = self.progress.context {
            self.progress.at = after_skippable(bytes, self.progress.at);
        }
    }

    /// Reads one command more.
    #[inline(always)]
    pub fn step(&mut self, alloc: Global, bytes: &[u8], first: &Scaled) -> Result<(), IndexStop>
        requires read { IsReadTo bytes.now first.now self.old.progress self.old.pages.items
            self.old.fonts }
        requires going { self.old.progress.is_ended ≡ false }
        ensures read { OnOk result
            (IsReadTo bytes.now first.now self.new.progress self.new.pages.items self.new.fonts) }
        ensures grows { OnOk result (self.old.progress.at < self.new.progress.at) }
        ensures stop { IfErr result (λ stop. IsStopFor stop first.now.units.res bytes.now) }
    {
        let Progress { at, context, .. } = self.progress;
        if let Err(fault) = judge_early(bytes, at, context, self.progress.post) {
            return Err(IndexStop::Fault(fault));
        }
        let (command, next) = match read_command(bytes, at, context) {
            Ok(read) => read,
            Err(fault) => return Err(IndexStop::Fault(doc_fault(fault, bytes, at))),
        };
        if let Some(fault) = self.progress.fault_of(first, &self.fonts, &command) {
            return Err(IndexStop::Fault(fault));
        }
        self.keep(alloc, &command)?;
        self.progress = self.progress.after(&command, next);
        Ok(())
    }
}
