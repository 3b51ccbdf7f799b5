//! The numbers of a spool's arguments.
ghost use Rattle.std.specs.Prelude.{◌≡◌, map, string_bytes};
ghost use Rattle.std.specs.List.{list_all};
ghost use Rattle.std.specs.Char.{is_ascii_digit};
ghost use Rattle.job_spool.specs.Words.{is_number as is_number_text, number_in, number_text, spool_numbers as numbers_of_words};

use crate::words::are_names;

// The most dots to the inch.
const MAX_RESOLUTION: u32 = 4800;

// The most workers of a run.
const MAX_WORKERS: u32 = 32;

// The most fonts that a cache may keep.
const MAX_CACHED_FONTS: u32 = 256;

// The most digits of a number.
const MAX_DIGITS: usize = 7;

/// The numbers of a spool's arguments.
#[derive(Clone, Copy, Debug, PartialEq, Eq)]
pub struct SpoolNumbers {
    /// Dots to the inch: 1 to 4800.
    pub res: u32,
    /// How many pages are drawn at a time: 1 to 32.
    pub workers: u32,
    /// How many fonts a cache keeps: 1 to 256.
    pub cache: u32,
}

fn are_digits(text: &[u8]) -> bool
    ensures { result ≡ list_all is_ascii_digit text.now }
{
    text.iter().all(|byte| byte.is_ascii_digit())
}

// Whether the text is one to seven decimal digits.
fn is_number(text: &[u8]) -> bool
    ensures { result ≡ is_number_text text.now }
{
    if text.is_empty() || text.len() > MAX_DIGITS {
        return false;
    }
    are_digits(text)
}

// The number that a text of one to seven decimal digits spells.
fn spelled(text: &str) -> Option<u32>
    ensures { result ≡ number_text text.now }
{
    if is_number(text.as_bytes()) {
        text.parse().ok()
    } else {
        None
    }
}

// And where it is from 1 to `most`.
fn number(text: &str, most: u32) -> Option<u32>
    ensures { result ≡ number_in most text.now }
{
    match spelled(text) {
        Some(number) => {
            if 1 <= number && number <= most {
                Some(number)
            } else {
                None
            }
        }
        None => None,
    }
}

/// The numbers of a spool's arguments, `RES WORKERS CACHE IN OUT [IN OUT ..]`, where they are such:
/// dots to the inch, how many pages are drawn at a time, and how many fonts a cache keeps, in one
/// to seven decimal digits each, and then the names of 1 to 16 pairs of files, none of them empty.
pub fn spool_numbers(words: &[String]) -> Option<SpoolNumbers>
    ensures { result ≡ numbers_of_words (map string_bytes words.now) }
{
    match words {
        [res, workers, cache, names @ ..] => {
            if !are_names(names) {
                return None;
            }
            Some(SpoolNumbers {
                res: number(res.as_str(), MAX_RESOLUTION)?,
                workers: number(workers.as_str(), MAX_WORKERS)?,
                cache: number(cache.as_str(), MAX_CACHED_FONTS)?,
            })
        }
        _ => None,
    }
}
