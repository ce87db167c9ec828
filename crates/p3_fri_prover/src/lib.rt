//! The prover of the low-degree test.
#![tactic(auto)]

pub mod prover;
