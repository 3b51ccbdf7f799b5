//! Tests of `real_outside`, from the outside: its public names alone.
#![tactic(auto)]

#[cfg(test)]
mod tests;
