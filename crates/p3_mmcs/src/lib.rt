//! Commitments to batches of matrices, what is claimed of committed matrices, and what an estimate
//! of soundness reads of a scheme's parameters.
#![tactic(auto)]

pub mod conditions;
pub mod laws;
pub mod mmcs;
pub mod openings;
pub mod security;
pub mod sha256_mmcs;

pub use crate::conditions::{have_power_heights, indices_are_below, max_height};
pub use crate::mmcs::Mmcs;
pub use crate::openings::{
    CommitmentOpening, CommitmentWithOpeningPoints, MatrixOpening, OpenedValues, PointOpening,
};
pub use crate::security::{FriRegime, GrindingSites};
pub use crate::sha256_mmcs::{Sha256Mmcs, Sha256MmcsError, Sha256ProverData};
