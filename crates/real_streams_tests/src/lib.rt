//! Tests of `real_streams`, from the outside: its public names alone.
#![tactic(auto)]

#[cfg(test)]
mod tests;
