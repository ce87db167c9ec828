//! Proofs of work, and witnesses that don't pass them.

use crate::accepted::LINE;
use crate::altered::Change;
use crate::asked::{AT_FIVE, Case, Expected, Opening, Question, ask};
use crate::replayed::replay;
use crate::scheme::{Claims, PLAIN, Proof, Setting};
use p3_field::{BabyBear, Field};
use p3_fri_folding::PowPhase;
use std::alloc::Global;
use std::process::Abort;

/// A proof of work in one phase alone.
const BATCH: Setting = Setting {
    work: Some(PowPhase::Batch),
    ..PLAIN
};

const COMMIT_PHASE: Setting = Setting {
    work: Some(PowPhase::CommitPhase),
    ..PLAIN
};

const QUERY: Setting = Setting {
    work: Some(PowPhase::Query),
    ..PLAIN
};

/// Openings of `2 - X` at 5 with their witnesses, with others, and without work.
static CASES: [Case; 4] = [
    Case {
        setting: BATCH,
        batches: &[&[&LINE]],
        openings: &[
            Opening {
                name: "a batch witness",
                setting: BATCH,
                verifier: BATCH,
                ..AT_FIVE
            },
            Opening {
                name: "another batch witness",
                setting: BATCH,
                change: Change::RefusedWitness(PowPhase::Batch),
                verifier: BATCH,
                expected: Expected::Named("InvalidPowWitness(Batch)", false),
                ..AT_FIVE
            },
        ],
    },
    Case {
        setting: COMMIT_PHASE,
        batches: &[&[&LINE]],
        openings: &[
            Opening {
                name: "a round's witness",
                setting: COMMIT_PHASE,
                verifier: COMMIT_PHASE,
                ..AT_FIVE
            },
            Opening {
                name: "another witness of a round",
                setting: COMMIT_PHASE,
                change: Change::RefusedWitness(PowPhase::CommitPhase),
                verifier: COMMIT_PHASE,
                expected: Expected::Named("InvalidPowWitness(CommitPhase)", false),
                ..AT_FIVE
            },
        ],
    },
    Case {
        setting: QUERY,
        batches: &[&[&LINE]],
        openings: &[
            Opening {
                name: "a query witness",
                setting: QUERY,
                verifier: QUERY,
                ..AT_FIVE
            },
            Opening {
                name: "another query witness",
                setting: QUERY,
                change: Change::RefusedWitness(PowPhase::Query),
                verifier: QUERY,
                expected: Expected::Named("InvalidPowWitness(Query)", false),
                ..AT_FIVE
            },
        ],
    },
    Case {
        setting: PLAIN,
        batches: &[&[&LINE]],
        openings: &[Opening {
            name: "no batch witness",
            verifier: BATCH,
            expected: Expected::Named("InvalidPowWitness(Batch)", false),
            ..AT_FIVE
        }],
    },
];

/// Gives the proof that witness.
pub(crate) fn set_witness(proof: &mut Proof, phase: PowPhase, number: u64) {
    let witness = BabyBear::from_u64(number);
    match phase {
        PowPhase::Batch => proof.batch_pow_witness = witness,
        PowPhase::CommitPhase => proof.commit_pow_witnesses.fill(witness),
        PowPhase::Query => proof.query_pow_witness = witness,
    }
}

/// Gives the proof the least witness in that phase that the transcripts refuse.
pub(crate) fn refuse_work(
    rt: &impl Abort,
    alloc: Global,
    setting: Setting,
    phase: PowPhase,
    proof: &mut Proof,
    claims: &Claims,
) {
    let mut is_refused = false;
    for number in 0..64 {
        if !is_refused {
            set_witness(proof, phase, number);
            is_refused = replay(rt, alloc, setting, &[2], proof, claims).is_none();
        }
    }
    assert!(rt; is_refused, "each witness passes");
}

#[test]
fn work_is_verified(rt: HostRuntime) {
    ask(&rt, rt.alloc(), Question::Openings(&CASES));
}
