//! What the verifier is sent, what it returns and where it ends.

use p3_fri_core::PowPhase;
use p3_fri_core::transcript::{Refusal, TranscriptFailure};

/// Whether the run is drawn, or why the verifier refuses.
pub(crate) type Answer = Result<bool, Refusal<TranscriptFailure>>;

/// How a transcript is run.
pub(crate) enum Form {
    Steps,
    Whole,
}

/// Whether the verifier's challenger is left where the seed left it, and whether where the prover's
/// is left.
type End = (bool, bool);

const AT_SEED: End = (true, false);

const AT_PROVERS: End = (false, true);

const ELSEWHERE: End = (false, false);

/// The shape of the verifier's transcript, what the verifier is sent, what it returns and where it
/// ends. It is sent so many commitments, witnesses of the rounds, which are all the same, and
/// coefficients of the final polynomial, which are all 5. The prover's transcript is the run.
pub(crate) struct Case {
    pub name: &'static str,
    pub prover: Form,
    pub verifier: Form,
    pub log_arities: &'static [usize],
    pub commit_pow_bits: usize,
    pub query_pow_bits: usize,
    pub commitments: usize,
    pub commit_witnesses: usize,
    pub coefficients: usize,
    pub commit_witness: u64,
    pub query_witness: Option<u64>,
    pub answer: Answer,
    pub end: End,
    /// Whether the seed may be refused memory, which has to leave the verifier's challenger as it
    /// was. That branch runs where an allocation fails (`rt try --test --fail-alloc N`).
    pub is_seed_optional: bool,
}

/// A case of three rounds, without proofs of work.
const ROUNDS: Case = Case {
    name: "3 of both",
    prover: Form::Steps,
    verifier: Form::Steps,
    log_arities: &[3, 3, 2],
    commit_pow_bits: 0,
    query_pow_bits: 0,
    commitments: 3,
    commit_witnesses: 3,
    coefficients: 1,
    commit_witness: 0,
    query_witness: None,
    answer: Ok(false),
    end: ELSEWHERE,
    is_seed_optional: false,
};

/// A case without rounds or proofs of work.
const QUERIES: Case = Case {
    name: "no bits",
    log_arities: &[],
    commitments: 0,
    commit_witnesses: 0,
    ..ROUNDS
};

/// What the prover of the run sends.
const SENT: Case = Case {
    name: "both sides draw the same",
    prover: Form::Steps,
    verifier: Form::Steps,
    log_arities: &[3],
    commit_pow_bits: 2,
    query_pow_bits: 3,
    commitments: 1,
    commit_witnesses: 1,
    coefficients: 1,
    commit_witness: 2,
    query_witness: Some(19),
    answer: Ok(true),
    end: AT_PROVERS,
    is_seed_optional: false,
};

/// The same as a whole, on both sides.
const WHOLE: Case = Case {
    name: "both witnesses, as a whole",
    prover: Form::Whole,
    verifier: Form::Whole,
    ..SENT
};

pub(crate) static CASES: [Case; 16] = [
    Case {
        name: "a refused `new` leaves the challenger",
        is_seed_optional: true,
        ..ROUNDS
    },
    Case {
        name: "2 commitments",
        commitments: 2,
        commit_witnesses: 2,
        answer: Err(Refusal::Step(TranscriptFailure::CommitRoundCount {
            expected: 3,
            got: 2,
        })),
        end: AT_SEED,
        ..ROUNDS
    },
    Case {
        name: "4 commitments",
        commitments: 4,
        commit_witnesses: 4,
        answer: Err(Refusal::Step(TranscriptFailure::CommitRoundCount {
            expected: 3,
            got: 4,
        })),
        end: AT_SEED,
        ..ROUNDS
    },
    Case {
        name: "50 commitments",
        commitments: 50,
        commit_witnesses: 50,
        answer: Err(Refusal::Step(TranscriptFailure::CommitRoundCount {
            expected: 3,
            got: 50,
        })),
        end: AT_SEED,
        ..ROUNDS
    },
    Case {
        name: "2 witnesses",
        commit_witnesses: 2,
        answer: Err(Refusal::Step(TranscriptFailure::CommitPowWitnessCount {
            expected: 3,
            got: 2,
        })),
        end: AT_SEED,
        ..ROUNDS
    },
    ROUNDS,
    Case {
        name: "3 coefficients",
        query_pow_bits: 8,
        coefficients: 3,
        answer: Err(Refusal::Step(TranscriptFailure::FinalPolyLen {
            expected: 1,
            got: 3,
        })),
        end: AT_SEED,
        ..QUERIES
    },
    QUERIES,
    Case {
        name: "no witness",
        query_pow_bits: 8,
        answer: Err(Refusal::Step(TranscriptFailure::MissingPowWitness(PowPhase::Query))),
        ..QUERIES
    },
    Case {
        name: "a wrong one",
        query_pow_bits: 8,
        query_witness: Some(45),
        answer: Err(Refusal::Step(TranscriptFailure::PowWitness(PowPhase::Query))),
        ..QUERIES
    },
    Case {
        name: "the right one",
        query_pow_bits: 8,
        query_witness: Some(46),
        ..QUERIES
    },
    SENT,
    Case {
        name: "the prover's steps are its whole transcript",
        verifier: Form::Whole,
        ..SENT
    },
    WHOLE,
    Case {
        name: "none of the queries, as a whole",
        query_witness: None,
        answer: Err(Refusal::Step(TranscriptFailure::MissingPowWitness(PowPhase::Query))),
        end: ELSEWHERE,
        ..WHOLE
    },
    Case {
        name: "a wrong one of the round, as a whole",
        commit_witness: 1,
        answer: Err(Refusal::Step(TranscriptFailure::PowWitness(PowPhase::CommitPhase))),
        end: ELSEWHERE,
        ..WHOLE
    },
];
