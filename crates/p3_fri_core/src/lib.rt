//! The core of FRI: the parameters of an instance, the schedule of its folds, the fold itself, its
//! proofs, and the transcripts that both sides of the low-degree test, and of the polynomial
//! commitment scheme around it, draw their challenges from.
//!
//! This crate has no code of its own: it shows the crates below under the Rust crate's modules and
//! names.
#![tactic(auto)]

pub mod config;
pub mod laws;
pub mod proof;

pub use crate::proof::{
    BatchMultiOpening, CommitPhaseMultiStep, FriProof, PlainBatch, PlainFriProof, PlainHidingProof,
    PlainProofError, PlainStep, from_plain, to_plain,
};
pub use p3_fri_folding::{
    FriFoldingStrategy, FriParameters, FriProverError, PowPhase, TwoAdicFriFolding, WithExtraBits,
    compute_log_arity_for_round, fold_lanes, fold_schedule, folding, is_strictly_falling, lanes,
    pow_phase, strategy,
};
pub use p3_fri_pcs_transcript::{PcsShape, pcs_transcript};
pub use p3_fri_transcript::{FriShape, transcript};
