//! Schemes over records of numbers and texts, at any field that schemes are made over, its
//! extension and SHA-256. A request is committed to and opened, claims and their proof are
//! verified, each from a fresh challenger that first absorbs the whole statement: by what the
//! scheme hides, if it does, the context, parameters, commitments, domains, widths and points.
//! serde's formats write and read the records, which name no field: each side knows its own.
//!
//! The calls serve each scheme that is made of parameters; `plain` has those of the plain scheme.
//!
//! So what is accepted are values of the polynomials committed to, for this context. A point that
//! has to be random is drawn after the commitments: by `challenge`, from the bytes of what was sent
//! so far, which are then the context.
//!
//! Whatever comes from outside is tested and refused by name, with its place, before anything is
//! committed to. No call halts. What a call takes of time and memory follows from the request: an
//! opening makes `2^log_blowup` values of each that is committed to, and tries some `2^b` witnesses
//! for a proof of work of `b` bits, at most all elements of the field.
#![tactic(auto)]

pub mod plain;

pub use fri_commitments::{Masking, commit};
pub use fri_opening::{Opening, open};
pub use fri_records::{
    Batch, BatchClaims, Domain, Fault, Matrix, MatrixClaims, Misfit, Parameters, Place,
    PointClaims, ReadError, Record, Request, RequestError, VerifierError, VerifyError,
};
pub use fri_schemes::{HidingScheme, MadeScheme, PlainScheme, SchemeField};
pub use fri_verification::{challenge, verify};
