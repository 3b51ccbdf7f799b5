//! Tests of `page_workers`, from the outside: its public names alone.
#![tactic(auto)]

#[cfg(test)]
mod tests;
