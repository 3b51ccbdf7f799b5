//! The arguments of a spool, as pairs of file names.
ghost use Rattle.std.specs.Prelude.{◌≡◌, ◌+◌, ◌%◌, ◌<◌, [], IfOk, IsErrOf, None, length, map, slice_index_or, string_bytes};
ghost use Rattle.std.specs.List.{list_all};
ghost use Rattle.job_spool.specs.Words.{are_names as are_names_texts, is_count_of_names, is_name, names_of, pairs_of, pairs_of_words, spool_numbers as numbers_of_words};
ghost use Rattle.job_spool.specs.declared.words.SpoolStop.TheVariants.{NoMemory};

use crate::numbers::spool_numbers;
use std::alloc::{AllocError, Global};

/// The most documents of a spool.
pub const MAX_JOBS: usize = 16;

/// The names of a document's two files.
#[derive(Drop)]
pub struct Pair {
    /// The DVI file.
    pub source: String,
    /// The file that its pages are written to.
    pub target: String,
}

/// Why arguments gave no pairs.
#[derive(Clone, Copy, Debug, PartialEq, Eq)]
pub enum SpoolStop {
    /// They aren't those of a spool.
    Usage,
    /// Out of memory.
    NoMemory,
}

impl From<AllocError> for SpoolStop {
    ghost from_gives = { λ _ e. e ≡ NoMemory };

    fn from(_error: AllocError) -> SpoolStop {
        SpoolStop::NoMemory
    }
}

fn is_given(name: &String) -> bool
    ensures { result ≡ is_name (string_bytes name.now) }
{
    name.len() != 0
}

// Whether none of the names is empty.
fn are_given(names: &[String]) -> bool
    ensures { result ≡ list_all (λ name. is_name (string_bytes name)) names.now }
{
    names.iter().all(|name| is_given(name))
}

// Whether there may be so many names.
fn is_count(count: usize) -> bool
    ensures { result ≡ is_count_of_names count }
{
    count >= 2 && count <= 2 * MAX_JOBS && count % 2 == 0
}

/// Whether these are the names of 1 to 16 pairs of files, none of them empty.
pub(crate) fn are_names(names: &[String]) -> bool
    ensures { result ≡ are_names_texts (map string_bytes names.now) }
{
    is_count(names.len()) & are_given(names)
}

// A pair of copies of the name at a place and the one after it.
fn copied(alloc: Global, names: &[String], at: usize) -> Result<Pair, AllocError>
    requires inside { at + 1 < length names.now }
    ensures { IfOk result (λ p. names_of p ≡ record {
      source = slice_index_or (map string_bytes names.now) at [];
      target = slice_index_or (map string_bytes names.now) (at + 1) [];
    }) }
{
    let source = String::from_str(alloc, names[at].as_str())?;
    let target = String::from_str(alloc, names[at + 1].as_str())?;
    Ok(Pair { source, target })
}

// Copies of names, two by two.
fn pairs_in(alloc: Global, names: &[String]) -> Result<Vec<Pair>, AllocError>
    requires even { length names.now % 2 ≡ 0 }
    ensures { IfOk result
        (λ pairs. map names_of pairs.items ≡ pairs_of (map string_bytes names.now)) }
{
    let mut pairs = Vec::new(alloc);
    let mut at = 0;
    while at < names.len() {
        pairs.push(copied(alloc, names, at)?)?;
        at += 2;
    }
    Ok(pairs)
}

/// The pairs of file names of a spool's arguments, in their order. These are
/// `RES WORKERS CACHE IN OUT [IN OUT ..]`: dots to the inch, from 1 to 4800; how many pages are
/// drawn at a time, from 1 to 32; how many fonts a cache keeps, from 1 to 256; each in one to seven
/// decimal digits; and then the names of 1 to 16 pairs of files, none of them empty. `Usage` comes
/// exactly where the arguments aren't such.
pub fn spool_pairs(alloc: Global, words: &[String]) -> Result<Vec<Pair>, SpoolStop>
    ensures pairs { IfOk result
        (λ pairs. map names_of pairs.items ≡ pairs_of_words (map string_bytes words.now)) }
    ensures usage { IsErrOf result SpoolStop.Usage
        → numbers_of_words (map string_bytes words.now) ≡ None }
    ensures refused { numbers_of_words (map string_bytes words.now) ≡ None
        → IsErrOf result SpoolStop.Usage }
{
    match words {
        [_, _, _, names @ ..] => {
            if spool_numbers(words).is_none() {
                return Err(SpoolStop::Usage);
            }
            Ok(pairs_in(alloc, names)?)
        }
        _ => Err(SpoolStop::Usage),
    }
}
