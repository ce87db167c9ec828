//! The verifier of a STARK over any scheme of polynomials in one variable: a proof is accepted
//! exactly where the written relation holds, for any proof and any constraint system.
#![tactic(auto)]

pub mod chunks;
mod claims;
pub mod error;
pub mod inputs;
pub mod opened;
pub mod proof;
pub mod setting;
pub mod verifier;

pub use crate::error::VerificationError;
pub use crate::proof::{Commitments, OpenedValues, PreprocessedVerifierKey, Proof, Statement};
pub use crate::verifier::verify;
