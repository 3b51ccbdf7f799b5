//! Arguments of a spool: the pairs that they give, and what is refused.

use job_spool::{Pair, SpoolNumbers, SpoolStop, spool_numbers, spool_pairs};
use std::alloc::{AllocError as NoMemory, Global};
use std::test::Fail;

fn words_of(alloc: Global, words: &[&str]) -> Result<Vec<String>, NoMemory> {
    let mut list = Vec::new(alloc);
    for word in words {
        list.push(String::from_str(alloc, *word)?)?;
    }
    Ok(list)
}

// The names of all pairs, each with a space behind it.
fn told(alloc: Global, pairs: &[Pair]) -> Result<String, NoMemory> {
    let mut text = String::new(alloc);
    for pair in pairs {
        text.push_str(pair.source.as_str())?;
        text.push_str(" ")?;
        text.push_str(pair.target.as_str())?;
        text.push_str(" ")?;
    }
    Ok(text)
}

// What the arguments give.
fn given(alloc: Global, words: &[&str]) -> Result<(String, Option<SpoolNumbers>), SpoolStop> {
    let words = words_of(alloc, words)?;
    let pairs = spool_pairs(alloc, words.as_slice())?;
    let numbers = spool_numbers(words.as_slice());
    Ok((told(alloc, pairs.as_slice())?, numbers))
}

// The arguments, their names and their numbers.
static TAKEN: [(&'static [&'static str], &'static str, u32, u32, u32); 3] = [
    (&["300", "1", "3", "a", "b"], "a b ", 300, 1, 3),
    (
        &["0004800", "0000032", "0000256", "x.dvi", "x", "x.dvi", "x"],
        "x.dvi x x.dvi x ",
        4800,
        32,
        256,
    ),
    (
        &[
            "1", "1", "1", "a", "A", "b", "B", "c", "C", "d", "D", "e", "E", "f", "F", "g", "G",
            "h", "H", "i", "I", "j", "J", "k", "K", "l", "L", "m", "M", "n", "N", "o", "O", "p",
            "P",
        ],
        "a A b B c C d D e E f F g G h H i I j J k K l L m M n N o O p P ",
        1,
        1,
        1,
    ),
];

#[test]
fn pairs_that_are_given(rt: HostRuntime) -> Result<(), Fail> {
    for (words, names, res, workers, cache) in TAKEN.iter() {
        let numbers = SpoolNumbers {
            res: *res,
            workers: *workers,
            cache: *cache,
        };
        assert_eq!(rt;
            given(rt.alloc(), words),
            Ok((String::from_str(rt.alloc(), *names)?, Some(numbers))),
            "at {words:?}"
        );
    }
    Ok(())
}

static REFUSED: [&'static [&'static str]; 22] = [
    &[],
    &["300"],
    &["300", "1", "3"],
    &["300", "1", "3", "a"],
    &["300", "1", "3", "a", "b", "c"],
    &["300", "1", "3", "", "b"],
    &["300", "1", "3", "a", ""],
    &["0", "1", "3", "a", "b"],
    &["4801", "1", "3", "a", "b"],
    &["300", "0", "3", "a", "b"],
    &["300", "33", "3", "a", "b"],
    &["300", "1", "0", "a", "b"],
    &["300", "1", "257", "a", "b"],
    &["", "1", "3", "a", "b"],
    &["00000300", "1", "3", "a", "b"],
    &["+300", "1", "3", "a", "b"],
    &["-1", "1", "3", "a", "b"],
    &["300 ", "1", "3", "a", "b"],
    &["3e2", "1", "3", "a", "b"],
    &["300", "1", "a", "b", "c"],
    &["--res", "300", "1", "3", "a", "b"],
    &[
        "1", "1", "1", "a", "A", "b", "B", "c", "C", "d", "D", "e", "E", "f", "F", "g", "G", "h",
        "H", "i", "I", "j", "J", "k", "K", "l", "L", "m", "M", "n", "N", "o", "O", "p", "P", "q",
        "Q",
    ],
];

#[test]
fn all_else_is_refused(rt: HostRuntime) {
    for words in REFUSED.iter() {
        assert_eq!(rt;
            given(rt.alloc(), words),
            Err(SpoolStop::Usage),
            "at {words:?}"
        );
    }
}
