//! Tests of `job_spool`, from the outside: its public names alone.
#![tactic(auto)]

#[cfg(test)]
mod tests;
