//! Each public name of `p3_fri`, by the module that shows it: one that is lost isn't found here.

use p3_fri::{fold_schedule, is_strictly_falling};
use std::test::Fail;

pub mod root {
    pub use p3_fri::{
        BatchMultiOpening, CommitPhaseMultiStep, CommitmentWithOpeningPoints, FriFoldingStrategy,
        FriParameters, FriProof, FriProverError, FriShape, HidingFriPcs, HidingFriPcsProverData,
        HidingFriProverError, PcsProverTranscript, PcsShape, PcsTranscriptFailure,
        PcsVerifierTranscript, PlainBatch, PlainFriProof, PlainHidingProof, PlainProofError,
        PlainStep, ProverDataWithOpeningPoints, ProverTranscript, TranscriptFailure,
        TwoAdicFriFolding, TwoAdicFriFoldingForMmcs, TwoAdicFriPcs, TwoAdicPeriodicEvaluator,
        VerifierTranscript, WithExtraBits, are_openable, build_periodic_lde_table_two_adic,
        compute_log_arity_for_round, fold_lanes, fold_schedule, from_plain, is_strictly_falling,
        to_plain,
    };
}

pub mod config {
    pub use p3_fri::config::{
        FriParameters, FriProverError, WithExtraBits, compute_log_arity_for_round, fold_schedule,
        is_strictly_falling,
    };
}

pub mod folds {
    pub use p3_fri::folding::TwoAdicFriFolding;
    pub use p3_fri::lanes::fold_lanes;
    pub use p3_fri::strategy::{FriFoldingStrategy, WithExtraBits};
}

pub mod laws {
    pub use p3_fri::laws::{
        binary_folds_law, fri_replay_law, fri_seed_examples_law, fri_seed_law, no_bits_law,
        pcs_replay_law, pcs_seed_examples_law, pcs_seed_law, pcs_shown_law, relation_example_law,
    };
}

pub mod proof {
    pub use p3_fri::proof::{
        BatchMultiOpening, CommitPhaseMultiStep, FriProof, HidingFriProof, Plain, PlainBatch,
        PlainFriProof, PlainHidingProof, PlainProofError, PlainStep, TwoAdicFriProof, from_plain,
        hiding_from_plain, hiding_to_plain, to_plain,
    };
}

pub mod transcripts {
    pub use p3_fri::pcs_transcript::{
        PcsFailure, PcsProverTranscript, PcsShape, PcsTranscript, PcsTranscriptFailure,
        PcsVerifierTranscript, PlayedPcs, ReplayedPcs, play_pcs, replay_pcs,
    };
    pub use p3_fri::pow_phase::PowPhase;
    pub use p3_fri::transcript::{
        FriMessages, FriShape, FriTranscript, PlayedFri, ProverTranscript, Refusal, ReplayedFri,
        TranscriptFailure, VerifierTranscript, play_fri, replay_fri,
    };
}

pub mod sides {
    pub use p3_fri::prover::{ProverDataWithOpeningPoints, prove_fri};
    pub use p3_fri::verifier::{
        FriError, FriOpenings, PowPhase, QuerySetting, fold_query, heights_are_within, open_inputs,
        verify_fri,
    };
}

pub mod schemes {
    pub use p3_fri::hiding_pcs::{
        HidingFriPcs, HidingFriPcsProverData, HidingFriProverError, are_disjoint,
    };
    pub use p3_fri::two_adic_pcs::{
        CommitmentWithOpeningPoints, ProverDataWithOpeningPoints, TwoAdicFriFolding,
        TwoAdicFriFoldingForMmcs, TwoAdicFriPcs,
    };
}

pub mod periodic {
    pub use p3_fri::periodic::{TwoAdicPeriodicEvaluator, build_periodic_lde_table_two_adic};
}

#[test]
fn each_name_is_there(rt: HostRuntime) -> Result<(), Fail> {
    let heights = [10, 6];
    let falls = is_strictly_falling(&heights);
    if !falls {
        return Err(Fail::new("the heights don't fall"));
    }
    let schedule = fold_schedule(rt.alloc(), &heights, 2, 3)?;
    assert!(rt; schedule.as_slice() == [3, 1, 3, 1].as_slice());
    Ok(())
}
