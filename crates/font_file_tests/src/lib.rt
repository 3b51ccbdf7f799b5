//! Tests of `tfm_reader`, `vf_reader`, `pk_packets`, `gf_reader`, `pk_runs` and `pk_packer`, from
//! the
//! outside: their public names alone.
#![tactic(auto)]

#[cfg(test)]
mod tests;
