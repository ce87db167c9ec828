//! The prover of openings: the values of committed polynomials at points, and the transcript around
//! the low-degree test that shows them.
#![tactic(auto)]

mod open;
mod opened_data;
mod opened_rounds;
mod prepared;
mod request_checks;
mod seeded;
pub mod setting;
mod words;

pub use crate::open::{open_requests, open_rounds};
pub use p3_fri_prover::prover::ProverDataWithOpeningPoints;
