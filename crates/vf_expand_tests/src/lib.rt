//! Tests of `vf_expand`, from the outside: its public names alone.
#![tactic(auto)]

#[cfg(test)]
mod tests;
