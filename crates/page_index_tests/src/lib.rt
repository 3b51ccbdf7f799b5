//! Tests of `page_index`, from the outside: its public names alone.
#![tactic(auto)]

#[cfg(test)]
mod tests;
