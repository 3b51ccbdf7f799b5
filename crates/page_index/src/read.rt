//! Reading a document.
ghost use Rattle.std.specs.Prelude.{◌≡◌, ◌≤◌, IfErr, IfOk, true};
ghost use Rattle.page_index.specs.Document.{IsDocument};
ghost use Rattle.page_index.specs.Faults.{IsStopFor};
ghost use Rattle.page_index.specs.Walked.{IsBegun, IsReadTo};
ghost use Rattle.pixel_round.specs.Limits.{MAX_RESOLUTION};

use crate::faults::{DocFault, IndexStop};
use crate::index::Index;
use crate::limits::MAX_DOCUMENT_LENGTH;
use crate::preamble::Scaled;
use crate::walk::Walk;
use crate::{preamble, trailer};
use std::alloc::Global;

// Reads the commands to PostPost.
fn walked(alloc: Global, bytes: &[u8], first: &Scaled) -> Result<Walk, IndexStop>
    requires { IsBegun bytes.now first.now }
    ensures read { IfOk result
        (λ walk. IsReadTo bytes.now first.now walk.progress walk.pages.items walk.fonts) }
    ensures ended { IfOk result (λ walk. walk.progress.is_ended ≡ true) }
    ensures stop { IfErr result (λ stop. IsStopFor stop first.now.units.res bytes.now) }
{
    let mut walk = Walk::begin(alloc, bytes, first);
    while !walk.progress.is_ended {
        walk.pass_skippable(bytes);
        walk.step(alloc, bytes, first)?;
    }
    Ok(walk)
}

impl<'a> Index<'a> {
    /// Reads a document of at most [`MAX_DOCUMENT_LENGTH`] bytes, for a resolution of 1 to 4800
    /// dots to the inch.
    pub fn read(alloc: Global, bytes: &'a [u8], res: u32) -> Result<Index<'a>, IndexStop>
        requires some { 1 ≤ res }
        requires fine { res ≤ MAX_RESOLUTION }
        ensures document { IfOk result (λ index. IsDocument res bytes.now index.reading) }
        ensures resolution { IfOk result (λ index. index.res ≡ res) }
        ensures stop { IfErr result (λ stop. IsStopFor stop res bytes.now) }
    {
        if bytes.len() > MAX_DOCUMENT_LENGTH {
            return Err(IndexStop::Fault(DocFault::TooLong {
                at: MAX_DOCUMENT_LENGTH,
            }));
        }
        let first = preamble::judge_preamble(bytes, res)?;
        let walk = walked(alloc, bytes, &first)?;
        if let Err(fault) = trailer::judge_filler(bytes, walk.progress.at) {
            return Err(IndexStop::Fault(fault));
        }
        let Walk {
            progress,
            pages,
            fonts,
        } = walk;
        Ok(Index {
            bytes,
            units: first.units,
            conv: first.conv,
            end: progress.at,
            pages,
            fonts,
        })
    }
}
