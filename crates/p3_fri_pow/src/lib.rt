//! What both protocols' transcripts share: proofs of work, steps and labels.
#![tactic(auto)]

pub mod laws;
pub mod pow;
pub mod steps;
