//! What a STARK's prover computes is what its verifier asks: laws of quotients that are computed on
//! a coset and cut into chunks, and of periodic columns as functions.
#![tactic(auto)]

pub mod laws;

pub use crate::laws::{honest_chunks_law, periodic_columns_law};
