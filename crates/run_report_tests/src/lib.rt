//! Tests of `run_report`, from the outside: its public names alone.
#![tactic(auto)]

#[cfg(test)]
mod tests;
