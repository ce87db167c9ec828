//! FRI: the low-degree test and the polynomial commitment schemes that stand on it.
//!
//! This crate has no code of its own: it shows the crates below under the Rust crate's modules and
//! names. `prover` and `verifier` are the two sides of the low-degree test; all other names stand
//! at the root.
#![tactic(auto)]

pub mod hiding_pcs;
pub mod prover;
pub mod verifier;

pub use crate::hiding_pcs::{HidingFriPcs, HidingFriPcsProverData, HidingFriProverError};
pub use p3_fri_core::pcs_transcript::{
    PcsProverTranscript, PcsTranscriptFailure, PcsVerifierTranscript,
};
pub use p3_fri_core::transcript::{ProverTranscript, TranscriptFailure, VerifierTranscript};
pub use p3_fri_core::{
    BatchMultiOpening, CommitPhaseMultiStep, FriFoldingStrategy, FriParameters, FriProof,
    FriProverError, FriShape, PcsShape, PlainBatch, PlainFriProof, PlainHidingProof,
    PlainProofError, PlainStep, TwoAdicFriFolding, WithExtraBits, compute_log_arity_for_round,
    config, fold_lanes, fold_schedule, folding, from_plain, is_strictly_falling, lanes, laws,
    pcs_transcript, pow_phase, proof, strategy, to_plain, transcript,
};
pub use p3_fri_openings::are_openable;
pub use p3_fri_two_adic::two_adic_pcs;
pub use p3_fri_two_adic::two_adic_pcs::{
    CommitmentWithOpeningPoints, ProverDataWithOpeningPoints, TwoAdicFriFoldingForMmcs,
    TwoAdicFriPcs,
};
pub use p3_periodic::periodic;
pub use p3_periodic::periodic::{TwoAdicPeriodicEvaluator, build_periodic_lde_table_two_adic};
