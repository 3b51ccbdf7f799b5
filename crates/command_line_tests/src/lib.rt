//! Tests of `command_line`, from the outside: its public names alone.
#![tactic(auto)]

#[cfg(test)]
mod tests;
