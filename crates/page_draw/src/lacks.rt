//! What a page lacks, each once.
ghost use Rattle.std.specs.Prelude.{◌≡◌, [], Some, pos, IfOk, IsTrue, OnOk};
ghost use Rattle.std.specs.Arc.{arc_value};
ghost use Rattle.vf_expand.specs.Faults.{Font, is_lack, is_missing, value_of_fault};
ghost use Rattle.page_draw.specs.Lacks.{Names, missing_of, value_of_lack, value_of_missing, values_of, with_lack};

use font_decode::{FileKind, FontFault};
use outside::FontKey;
use std::alloc::{AllocError as NoMemory, Global};
use std::collections::BTreeSet;
use std::marker::Model;
use std::sync::Arc;
use vf_expand::{Lack, PageFault};

// What is missing, by which equal faults are found: a kind, a code, and the key of the font.
#[derive(Drop, PartialEq, Eq, PartialOrd, Ord)]
pub(crate) struct Missing {
    kind: u8,
    code: i32,
    font: Arc<FontKey>,
}

// The lacks of a page so far, of lacks with an equal fault the first.
#[derive(Drop)]
pub(crate) struct Lacks {
    list: Vec<Lack>,
    known: BTreeSet<Missing>,
}

impl Model for Lacks {
    ghost use Rattle.std.specs.Prelude.{List};
    ghost use Rattle.vf_expand.specs.declared.lack.Lack.{Lack};
    ghost use Rattle.page_draw.specs.Known.{AreKnown};

    ghost Value = { List Lack };

    ghost view = { λ l. l.list.items };

    ghost invariant = { λ l. AreKnown l.list.items l.known };
}

fn make_missing(kind: u8, code: i32, font: &Arc<FontKey>) -> Result<Missing, NoMemory>
    ensures { IfOk result (λ missing. value_of_missing missing
        ≡ record { kind = kind; code = code; font = arc_value font.now }) }
{
    Ok(Missing {
        kind,
        code,
        font: Arc::try_clone(font)?,
    })
}

// The kind of a file that a font lacks.
fn missing_file(fault: &FontFault) -> u8
    requires { IsTrue (is_missing fault.now) }
    ensures { (key : _) → missing_of (Font key fault.now)
        ≡ Some (record { kind = result; code = pos 0; font = key }) }
{
    match fault {
        FontFault::Missing(FileKind::Tfm) => 3,
        _ => 4,
    }
}

fn missing_by(fault: &PageFault) -> Result<Missing, NoMemory>
    requires { IsTrue (is_lack (value_of_fault fault.now)) }
    ensures { IfOk result (λ missing. Names missing (value_of_fault fault.now)) }
{
    match fault {
        PageFault::NoCharacter(font, code) => make_missing(0, *code, font),
        PageFault::NoGlyph(font, code) => make_missing(1, *code, font),
        PageFault::NoPacket(font, code) => make_missing(2, *code, font),
        PageFault::Font(font, fault) => make_missing(missing_file(fault), 0, font),
        PageFault::NoFont(_)
        | PageFault::NoCurrentFont
        | PageFault::NoLocalFont(..)
        | PageFault::Depth(..)
        | PageFault::TooLong
        | PageFault::Pen(_) => unreachable!(),
    }
}

impl Lacks {
    pub(crate) fn new(alloc: Global) -> Lacks
        ensures { result ≡ [] }
    {
        Lacks {
            list: Vec::new(alloc),
            known: BTreeSet::new(alloc),
        }
    }

    // A lack that the page has already is passed over, and allocates nothing.
    pub(crate) fn add(&mut self, lack: Lack) -> Result<(), NoMemory>
        requires { IsTrue (is_lack (value_of_fault lack.fault)) }
        ensures { OnOk result (values_of self.new
            ≡ with_lack (values_of self.old) (value_of_lack lack)) }
    {
        let missing = missing_by(&lack.fault)?;
        if self.known.contains(&missing) {
            return Ok(());
        }
        self.list.reserve(1)?;
        self.known.insert(missing)?;
        self.list.push_reserved(lack);
        Ok(())
    }

    pub(crate) fn finish(self) -> Vec<Lack>
        ensures { result.items ≡ self }
    {
        self.list
    }
}
