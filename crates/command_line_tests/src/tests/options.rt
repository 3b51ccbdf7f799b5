//! What a command of `clap` alone takes and a line doesn't: what the test of each argument's shape
//! is for.

use super::{read, words_of};
use clap::{Arg, Command};
use command_line::LineStop;
use std::alloc::{AllocError as NoMemory, Global};
use std::test::Fail;

static TAKEN_BY_CLAP: [&'static [&'static str]; 8] = [
    &["--"],
    &["--res=300", "--"],
    &["--res", "-"],
    &["--res", ""],
    &["--res="],
    &["--res=-1"],
    &["--res", "+300"],
    &["--res=3=3"],
];

// Whether the command with one option that takes a value takes the words.
fn is_taken(alloc: Global, words: &[&str]) -> Result<bool, NoMemory> {
    let command = Command::new(alloc, "dvipbm")
        .no_binary_name(true)
        .disable_help_flag(true)
        .arg(Arg::new(alloc, "res").long("res"))?;
    Ok(
        command
            .try_get_matches_from(&words_of(alloc, words)?)
            .is_ok(),
    )
}

#[test]
fn the_command_alone_takes_more(rt: HostRuntime) -> Result<(), Fail> {
    for words in TAKEN_BY_CLAP.iter() {
        let taken = is_taken(rt.alloc(), words)?;
        assert_eq!(rt;
            (taken, read(rt.alloc(), words, 64)),
            (true, Err(LineStop::Usage)),
            "at {words:?}"
        );
    }
    Ok(())
}
