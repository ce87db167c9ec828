//! A STARK with one trace, in the names of the Rust crate p3-uni-stark: `prove` and `verify`, over
//! any scheme of polynomials on two-adic cosets, for constraint systems that are data.
//!
//! This crate has no code of its own: it shows the crates below under one name.
#![tactic(auto)]

pub use p3_air::{Air, AirBuilder, AirError, AirLayout, DegreeError};
pub use p3_uni_stark_pcs::TwoAdicStarkPcs;
pub use p3_uni_stark_prover::{ProvingError, has_room, prove};
pub use p3_uni_stark_system::{
    PlainSystem, PreprocessingError, SystemProvingError, SystemVerificationError, prove_system,
    verify_system,
};
pub use p3_uni_stark_verifier::{
    Commitments, OpenedValues, PreprocessedVerifierKey, Proof, Statement, VerificationError, verify,
};
