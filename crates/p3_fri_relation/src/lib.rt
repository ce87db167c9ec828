//! Proofs of the low-degree test and of the scheme around it, why a verifier refuses one, and what
//! is accepted; and the powers of the batching challenge, by which prover and verifier sum up the
//! columns of all matrices of one height.
#![tactic(auto)]

pub mod error;
mod error_text;
pub mod heights;
pub mod ladder;
pub mod laws;
pub mod proof;
pub mod setting;

pub use crate::heights::validate_input_height;
pub use crate::ladder::{Ladder, combine_row};
pub use p3_fri_folding::FriParameters;
