//! Sums over the codes of a font's characters, which definitions speak of: what a font weighs is
//! such a sum. No value is computed here.
#![tactic(auto)]

pub mod laws;
