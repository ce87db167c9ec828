//! The prover of a STARK over any scheme of polynomials in one variable: where the trace satisfies
//! the constraints, what it returns is a proof that the verifier accepts.
#![tactic(auto)]

pub mod commitments;
pub mod preparation;
pub mod prover;
pub mod room;
pub mod steps;

pub use crate::prover::prove;
pub use crate::room::has_room;
pub use p3_uni_stark_phases::ProvingError;
