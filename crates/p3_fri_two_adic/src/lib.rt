//! The polynomial commitment scheme over two-adic fields.
#![tactic(auto)]

pub mod rules;
pub mod two_adic_pcs;
pub mod univariate;

pub use crate::two_adic_pcs::{
    CommitmentWithOpeningPoints, ProverDataWithOpeningPoints, TwoAdicFriFolding,
    TwoAdicFriFoldingForMmcs, TwoAdicFriPcs,
};
pub use p3_fri_opening_verifier::setting;
