//! The prover of the low-degree test: it folds committed words down to the final polynomial, and
//! opens what the verifier will ask for.

mod commit_phase;
mod heights;
mod last_word;
mod openings;
mod plan;
mod play;
mod prove;
mod roll_in;
mod rounds;

pub use crate::prover::openings::ProverDataWithOpeningPoints;
pub use crate::prover::prove::prove_fri;
pub use p3_fri_relation::validate_input_height;
