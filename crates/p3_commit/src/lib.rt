//! Commitments: the trait of commitments to batches of matrices with its tree over SHA-256, the
//! traits of polynomial commitment schemes and of their domains, and the types of periodic columns.
//!
//! This crate has no code of its own: it shows the crates below under one name.
#![tactic(auto)]

pub use p3_domain::{LagrangeSelectors, PolynomialSpace};
pub use p3_mmcs::{
    CommitmentOpening, CommitmentWithOpeningPoints, FriRegime, GrindingSites, MatrixOpening, Mmcs,
    OpenedValues, PointOpening, Sha256Mmcs, Sha256MmcsError, Sha256ProverData, have_power_heights,
    indices_are_below, laws, max_height, mmcs, openings, security, sha256_mmcs,
};
pub use p3_pcs::{
    KnownCommitment, OpenAndVerifyError, OpeningRequest, Pcs, Verified, claims_of, open_and_verify,
};
pub use p3_periodic::{PeriodicColumns, PeriodicError, PeriodicEvaluator, PeriodicLdeTable};
pub use p3_stark_columns::{StarkColumns, StarkError, StarkOpening, open_stark_columns};
pub use p3_stark_pcs::{UnivariateStarkPcs, open_and_verify_with_preprocessing};
