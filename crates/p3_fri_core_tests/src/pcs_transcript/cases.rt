//! What both sides draw, what the verifier is sent and what it returns.

use crate::run::{Run, element};
use p3_field::{BabyBear, BabyBear4, Field};
use p3_fri_core::PowPhase;
use p3_fri_core::pcs_transcript::{PcsFailure, PcsTranscriptFailure};
use p3_fri_core::transcript::{Refusal, TranscriptFailure};
use p3_mmcs::CommitmentOpening;

pub(crate) type Claim = CommitmentOpening<BabyBear4, [u8; 32], ()>;

/// Whether the run is drawn, or why the verifier refuses.
pub(crate) type Answer = Result<bool, Refusal<PcsFailure>>;

/// The numbers of claimed values, by commitment, matrix and point.
pub(crate) type Counts = &'static [&'static [&'static [usize]]];

/// How a transcript is run.
pub(crate) enum Form {
    /// The claims alone are compared with those described.
    Claims,
    Steps,
    /// With the test of one round inside.
    Whole,
}

/// Bits of proof of work before the batching challenge, how many values are described and how many
/// are claimed, the witnesses that the verifier is sent, and what it returns. It ends in the
/// prover's state exactly where it draws the run.
pub(crate) struct Case {
    pub name: &'static str,
    pub form: Form,
    pub bits: usize,
    pub described: Counts,
    pub claimed: usize,
    pub batch_witness: Option<u64>,
    pub query_witness: Option<u64>,
    pub answer: Answer,
    /// Whether the seed may be refused memory, which has to leave the verifier's challenger as it
    /// was. That branch runs where an allocation fails (`rt try --test --fail-alloc N`).
    pub is_seed_optional: bool,
}

const CLAIMS: Case = Case {
    name: "the claim described",
    form: Form::Claims,
    bits: 0,
    described: &[&[&[2]]],
    claimed: 2,
    batch_witness: None,
    query_witness: None,
    answer: Ok(false),
    is_seed_optional: false,
};

const STEPS: Case = Case {
    name: "four bits",
    form: Form::Steps,
    bits: 4,
    described: &[&[&[1]]],
    claimed: 1,
    batch_witness: Some(27),
    query_witness: None,
    answer: Ok(true),
    is_seed_optional: false,
};

const WHOLE: Case = Case {
    name: "both witnesses, as a whole",
    form: Form::Whole,
    query_witness: Some(11),
    ..STEPS
};

pub(crate) static CASES: [Case; 12] = [
    Case {
        name: "a refused `new` leaves the challenger",
        described: &[&[&[3, 1]], &[&[2]]],
        claimed: 0,
        is_seed_optional: true,
        ..CLAIMS
    },
    CLAIMS,
    Case {
        name: "no claim",
        claimed: 0,
        ..CLAIMS
    },
    Case {
        name: "a longer claim",
        claimed: 3,
        answer: Err(Refusal::Step(PcsFailure::Pcs(PcsTranscriptFailure::ClaimedEvaluationCount {
            opening: 0,
            expected: 2,
            got: 3,
        }))),
        ..CLAIMS
    },
    Case {
        name: "a claim that isn't described",
        described: &[],
        answer: Err(Refusal::Step(PcsFailure::Pcs(PcsTranscriptFailure::ClaimedEvaluationCount {
            opening: 0,
            expected: 0,
            got: 2,
        }))),
        ..CLAIMS
    },
    Case {
        name: "no bits",
        bits: 0,
        batch_witness: None,
        ..STEPS
    },
    STEPS,
    Case {
        name: "no witness",
        batch_witness: None,
        answer: Err(Refusal::Step(PcsFailure::Pcs(PcsTranscriptFailure::MissingPowWitness {
            bits: 4,
        }))),
        ..STEPS
    },
    Case {
        name: "a wrong one",
        batch_witness: Some(26),
        answer: Err(Refusal::Step(PcsFailure::Pcs(PcsTranscriptFailure::PowWitness { bits: 4 }))),
        ..STEPS
    },
    WHOLE,
    Case {
        name: "none of the batch, as a whole",
        batch_witness: None,
        answer: Err(Refusal::Step(PcsFailure::Pcs(PcsTranscriptFailure::MissingPowWitness {
            bits: 4,
        }))),
        ..WHOLE
    },
    Case {
        name: "none of the queries, as a whole",
        query_witness: None,
        answer: Err(Refusal::Step(PcsFailure::Fri(TranscriptFailure::MissingPowWitness(
            PowPhase::Query,
        )))),
        ..WHOLE
    },
];

/// What is drawn and found behind so many bits, none or four.
pub(crate) fn run_behind(bits: usize) -> PcsRun {
    let (alpha, batch_witness) = if bits == 0 {
        let alpha = element([296_278_921, 1_153_280_944, 1_164_941_694, 716_605_729]);
        (alpha, None)
    } else {
        let alpha = element([1_893_109_911, 1_140_352_409, 1_569_219_815, 223_669_611]);
        (alpha, Some(BabyBear::from_u64(27)))
    };
    PcsRun {
        alpha,
        batch_witness,
        test: Run {
            beta: element([115_710_677, 823_049_067, 281_331_580, 1_749_275_461]),
            indices: [6, 5, 3, 1],
            commit_witness: BabyBear::from_u64(5),
            query_witness: BabyBear::from_u64(11),
        },
    }
}

/// What both sides draw along an opening, and the prover's witness before the batching challenge.
#[derive(Drop)]
pub(crate) struct PcsRun {
    pub alpha: BabyBear4,
    pub batch_witness: Option<BabyBear>,
    pub test: Run,
}
