//! Tests that the workers of a run overlap, that a page is written while others of its round are
//! drawn, and how many pages there are at once, by `run_with`; and of jobs that share a cache, by
//! `draw_job`: from the outside.
#![tactic(auto)]

#[cfg(test)]
mod tests;
