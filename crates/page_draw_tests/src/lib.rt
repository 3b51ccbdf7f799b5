//! Tests of `page_draw`, from the outside: its public names alone.
#![tactic(auto)]

#[cfg(test)]
mod tests;
