//! Tests of `sample_maker`, from the outside: its public names alone.
#![tactic(auto)]

#[cfg(test)]
mod tests;
