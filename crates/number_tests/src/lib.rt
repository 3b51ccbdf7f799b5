//! Tests of `big_endian`, `byte_cursor`, `fix_word` and `pixel_round`, from the outside: their
//! public names alone.
#![tactic(auto)]

#[cfg(test)]
mod tests;
