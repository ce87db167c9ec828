//! A prover of the plain scheme that keeps what it committed to, so that an opening commits to
//! nothing, over any field that schemes are made over.
#![tactic(auto)]

mod prover;

pub use crate::prover::Prover;
pub use fri_numbers::ElementMatrix;
