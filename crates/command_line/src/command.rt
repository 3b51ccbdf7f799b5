//! The command that reads the arguments.
ghost use Rattle.std.specs.Prelude.{◌≡◌, IfOk, false};
ghost use Rattle.clap.specs.Words.{app_of, rule_of};
ghost use Rattle.command_line.specs.Commands.{line_app, number_rule, app_without_options, switch_rule};
ghost use Rattle.command_line.specs.Commands.{with_number as app_with_number};
ghost use Rattle.command_line.specs.Commands.{with_switch as app_with_switch};

use clap::{Arg, ArgAction, Command};
use std::alloc::{AllocError, Global};

fn number(alloc: Global, name: &str) -> Arg<'_>
    ensures rule { rule_of result ≡ number_rule name.now }
    ensures local { result.global ≡ false }
{
    Arg::new(alloc, name).long(name)
}

fn switch(alloc: Global, name: &str) -> Arg<'_>
    ensures rule { rule_of result ≡ switch_rule name.now }
    ensures local { result.global ≡ false }
{
    Arg::new(alloc, name).long(name).action(ArgAction::SetTrue)
}

fn command_without_options<'a>(alloc: Global) -> Command<'a>
    ensures { app_of result ≡ app_without_options }
{
    Command::new(alloc, "dvipbm")
        .no_binary_name(true)
        .disable_help_flag(true)
}

fn with_number<'a>(
    alloc: Global,
    command: Command<'a>,
    name: &'a str,
) -> Result<Command<'a>, AllocError>
    ensures { IfOk result (λ c. app_of c ≡ app_with_number (app_of command.entry) name.entry.now) }
{
    command.arg(number(alloc, name))
}

fn with_switch<'a>(
    alloc: Global,
    command: Command<'a>,
    name: &'a str,
) -> Result<Command<'a>, AllocError>
    ensures { IfOk result (λ c. app_of c ≡ app_with_switch (app_of command.entry) name.entry.now) }
{
    command.arg(switch(alloc, name))
}

/// The command of a line. It has no help and no version, and no option has a short name.
pub fn command<'a>(alloc: Global) -> Result<Command<'a>, AllocError>
    ensures { IfOk result (λ c. app_of c ≡ line_app) }
{
    let command = command_without_options(alloc);
    let command = with_number(alloc, command, "res")?;
    let command = with_number(alloc, command, "width")?;
    let command = with_number(alloc, command, "height")?;
    let command = with_number(alloc, command, "left")?;
    let command = with_number(alloc, command, "top")?;
    let command = with_number(alloc, command, "workers")?;
    let command = with_number(alloc, command, "cache")?;
    let command = with_number(alloc, command, "room")?;
    let command = with_number(alloc, command, "sample")?;
    let command = with_switch(alloc, command, "packed")?;
    let command = with_switch(alloc, command, "trace")?;
    let command = with_switch(alloc, command, "summary")?;
    with_switch(alloc, command, "tolerant")
}
