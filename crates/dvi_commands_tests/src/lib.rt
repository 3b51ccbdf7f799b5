//! Tests of `dvi_commands`, from the outside: its public names alone.
#![tactic(auto)]

#[cfg(test)]
mod tests;
