//! Tests of `cache_core`, `turn_lock`, `page_counter` and `font_cache`, from the outside: their
//! public names alone.
#![tactic(auto)]

#[cfg(test)]
mod tests;
