//! The prover of the low-degree test.

pub use p3_fri_prover::prover::{ProverDataWithOpeningPoints, prove_fri};
