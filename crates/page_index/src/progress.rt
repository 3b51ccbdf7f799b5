//! What was read of a document so far.
ghost use Rattle.std.specs.Prelude.{◌≡◌, ◌<◌, ◌≤◌, ◌^◌};
ghost use Rattle.big_endian.specs.Numbers.{int_eq};
ghost use Rattle.dvi_commands.specs.Spelling.{value_of_command};
ghost use Rattle.page_index.specs.Judged.{bop_fault};
ghost use Rattle.page_index.specs.Walked.{after_preamble as begun, fault_by, position_or_none, progress_after};

use crate::faults::{DocFault, PostField};
use crate::fonts::{FontTable, fault_of};
use crate::limits::MAX_PAGES;
use crate::preamble::Scaled;
use dvi_commands::{Command, Context};

/// Where the commands of a page are: from the first one to the page's Eop.
#[derive(Clone, Copy)]
pub struct PageSpan {
    pub start: usize,
    pub end: usize,
}

/// What was read of a document so far, as far as the commands after it are judged by it.
#[derive(Clone, Copy)]
pub struct Progress {
    /// The place of the next command.
    pub at: usize,
    /// Which commands may come there.
    pub context: Context,
    /// How many pages were begun.
    pub begun: usize,
    /// Where the last of them begins.
    pub bop: Option<usize>,
    /// The place of its first command.
    pub start: usize,
    /// The place of the postamble.
    pub post: Option<usize>,
    /// Whether the last command is PostPost.
    pub is_ended: bool,
}

// Whether a pointer leads to this position, or is -1 where there is none.
fn leads_back(bop: Option<usize>, back: i32) -> bool
    ensures { result ≡ int_eq back (position_or_none bop) }
{
    match bop {
        None => back == -1,
        Some(at) => back >= 0 && back as usize == at,
    }
}

impl Progress {
    /// After the preamble, which ends there.
    pub fn after_preamble(next: usize) -> Progress
        ensures { result ≡ begun next }
    {
        Progress {
            at: next,
            context: Context::Between,
            begun: 0,
            bop: None,
            start: next,
            post: None,
            is_ended: false,
        }
    }

    #[inline(never)]
    fn bop_fault_of(&self, back: i32) -> Option<DocFault>
        ensures { result ≡ bop_fault self.now.begun (position_or_none self.now.bop)
            self.now.at back }
    {
        if self.begun >= MAX_PAGES {
            return Some(DocFault::TooManyPages { at: self.at });
        }
        if !leads_back(self.bop, back) {
            return Some(DocFault::BackPointer { at: self.at });
        }
        None
    }

    /// What is wrong with a command at that place, where its fields aren't judged one by one.
    #[inline(always)]
    pub fn fault_of(&self, first: &Scaled, fonts: &FontTable, command: &Command) -> Option<DocFault>
        ensures { result ≡ fault_by self.now first.now fonts.now (value_of_command command.now) }
    {
        match command {
            Command::Define(def) => fault_of(fonts.get(def.number), self.at, def),
            Command::Bop { back, .. } => self.bop_fault_of(*back),
            Command::Post {
                back,
                num,
                den,
                mag,
                pages,
                ..
            } => {
                let field = if !leads_back(self.bop, *back) {
                    PostField::Pointer
                } else if i64::from(*num) != i64::from(first.units.num) {
                    PostField::Num
                } else if i64::from(*den) != i64::from(first.units.den) {
                    PostField::Den
                } else if i64::from(*mag) != i64::from(first.units.mag) {
                    PostField::Mag
                } else if *pages as usize != self.begun % 65536 {
                    PostField::Pages
                } else {
                    return None;
                };
                Some(DocFault::Postamble { field, at: self.at })
            }
            _ => None,
        }
    }

    /// What was read with one command more, that ends before `next`.
    #[inline(always)]
    pub fn after(self, command: &Command, next: usize) -> Progress
        requires { self.begun < 2 ^ 32 }
        ensures { result ≡ progress_after self (value_of_command command.now) next }
    {
        match command {
            Command::Bop { .. } => Progress {
                at: next,
                context: Context::Page,
                begun: self.begun + 1,
                bop: Some(self.at),
                start: next,
                ..self
            },
            Command::Eop => Progress {
                at: next,
                context: Context::Between,
                ..self
            },
            Command::Post { .. } => Progress {
                at: next,
                context: Context::Post,
                post: Some(self.at),
                ..self
            },
            Command::PostPost { .. } => Progress {
                at: next,
                is_ended: true,
                ..self
            },
            _ => Progress { at: next, ..self },
        }
    }
}
