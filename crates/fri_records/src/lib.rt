//! The records of requests, claims and parameters, which serde's formats write and read, and why
//! one is refused: a fault by name, with its field.
#![tactic(auto)]

mod fault;
mod parameters;
mod records;

pub use crate::fault::{
    Fault, Misfit, Place, ReadError, Record, RequestError, VerifierError, VerifyError,
};
pub use crate::parameters::{Rounds, fri_parameters, prover_parameters, verifier_parameters};
pub use crate::records::{
    Batch, BatchClaims, Domain, Matrix, MatrixClaims, Parameters, PointClaims, Request,
};
