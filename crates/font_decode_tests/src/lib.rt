//! Tests of `font_decode`, from the outside: its public names alone.
#![tactic(auto)]

#[cfg(test)]
mod tests;
