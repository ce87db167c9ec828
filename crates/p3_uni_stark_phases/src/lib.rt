//! The phases of a STARK's prover: commitments to trace, chunks and random polynomials, the values
//! of committed and of periodic columns on a coset, and the quotient's chunks there.
#![tactic(auto)]

pub mod commits;
pub mod error;
pub mod quotient;

pub use crate::commits::{Committed, commit_chunks, commit_random, commit_trace};
pub use crate::error::ProvingError;
pub use crate::quotient::{chunks_on_coset, evaluate, evaluate_if, periodic_on_coset};
