//! Arguments to settings.
ghost use Rattle.std.specs.Prelude.{◌≡◌, ◌≢◌, ◌≤◌, IfOk, IsErrOf, None, Some, map, string_bytes};
ghost use Rattle.clap.specs.Words.{kind_of};
ghost use Rattle.command_line.specs.Line.{settings_of};
ghost use Rattle.command_line.specs.Settings.{AreSettings};
ghost use Rattle.command_line.specs.declared.parse.LineStop.TheVariants.{NoMemory};

use crate::Settings;
use crate::command::command;
use crate::matches::settings_in;
use crate::shape::are_shaped;
use clap::Error;
use clap::error::ErrorKind;
use std::alloc::{AllocError, Global};

/// Why arguments gave no settings.
#[derive(Clone, Copy, Debug, PartialEq, Eq)]
pub enum LineStop {
    /// The arguments aren't a line of options, or a number lies outside its range.
    Usage,
    /// Out of memory.
    NoMemory,
}

impl From<AllocError> for LineStop {
    ghost from_gives = { λ _ e. e ≡ NoMemory };

    fn from(_error: AllocError) -> LineStop {
        LineStop::NoMemory
    }
}

/// The settings that `words`, the arguments after the program's name, give where there are n
/// `workers`.
///
/// A line is a list of options in any order, each at most once, and nothing else: `--res`,
/// `--width`, `--height`, `--left`, `--top`, `--workers`, `--cache`, `--room` and `--sample` with a
/// value, `--packed`, `--trace`, `--summary` and `--tolerant` without. A value is one to seven
/// decimal digits, or one to ten of `--room`, and is the next argument or comes after `=` in the
/// same one. Options that aren't there are as in `default_settings`, but the sheet depends on the
/// resolution: 8.5 by 11 inches, each side cut at 20,000 dots, and margins of one inch. With
/// `--tolerant` the sheet is tolerant. `Usage` comes exactly where the arguments aren't such a
/// line, a number lies outside its range (see `Settings`), there are fewer workers than the
/// settings would have, or `--packed` is there without `--sample`.
pub fn line(alloc: Global, words: &[String], workers: usize) -> Result<Settings, LineStop>
    ensures settings { IfOk result
        (λ s. settings_of workers (map string_bytes words.now) ≡ Some s) }
    ensures usage { IsErrOf result LineStop.Usage
        → settings_of workers (map string_bytes words.now) ≡ None }
    ensures allowed { IfOk result (λ s. AreSettings s) }
    ensures at_hand { IfOk result (λ s. s.workers ≤ workers) }
{
    if !are_shaped(words) {
        return Err(LineStop::Usage);
    }
    let command = command(alloc)?;
    match command.try_get_matches_from(words) {
        Ok(matches) => settings_in(&matches, workers).ok_or(LineStop::Usage),
        Err(error) => Err(stop_of(&error)),
    }
}

// `Usage` exactly where the refusal isn't want of memory.
fn stop_of(error: &Error) -> LineStop
    ensures usage { result ≡ LineStop.Usage → kind_of error.now ≢ ErrorKind.OutOfMemory }
    ensures no_other { kind_of error.now ≢ ErrorKind.OutOfMemory → result ≡ LineStop.Usage }
{
    match error.kind() {
        ErrorKind::OutOfMemory => LineStop::NoMemory,
        _ => LineStop::Usage,
    }
}
