//! Parameters, claims and openings that are refused by name, before anything is drawn.

use crate::answers::{Left, Made, challenger_after, is_answer, plain_parameters};
use crate::claims::matrix_claim;
use p3_field::{BabyBear, BabyBear4, Field};
use p3_fri_relation::proof::{BatchMultiOpening, FriProof};
use p3_mmcs::CommitmentOpening;
use std::alloc::Global;
use std::process::Abort;

/// Parameters, the log size of a claimed domain and how many openings a proof has, and the refusal.
struct Case {
    num_queries: usize,
    log_blowup: usize,
    max_log_arity: usize,
    log_final_poly_len: usize,
    log_size: Option<usize>,
    num_openings: usize,
    refusal: &'static str,
}

const PLAIN: Case = Case {
    num_queries: 2,
    log_blowup: 1,
    max_log_arity: 1,
    log_final_poly_len: 0,
    log_size: Some(0),
    num_openings: 0,
    refusal: "",
};

static CASES: [Case; 8] = [
    // parameters at zero
    Case {
        num_queries: 0,
        refusal: "ZeroQueries",
        ..PLAIN
    },
    Case {
        log_blowup: 0,
        refusal: "ZeroBlowup",
        ..PLAIN
    },
    Case {
        max_log_arity: 0,
        refusal: "ZeroFoldingArity",
        ..PLAIN
    },
    // claims out of range
    Case {
        log_size: None,
        refusal: "NoCommittedMatrices",
        ..PLAIN
    },
    Case {
        log_size: Some(27),
        refusal: "GlobalMaxHeightTooLarge { log_global_max_height: 28, two_adicity: 27 }",
        ..PLAIN
    },
    Case {
        log_final_poly_len: 3,
        log_size: Some(2),
        refusal: "FinalFoldHeightMismatch { expected: 4, got: 3 }",
        ..PLAIN
    },
    // more queries than can be drawn within the time of a test, without a round
    Case {
        num_queries: 1 << 30,
        refusal: "InputProofBatchCountMismatch { expected: 1, got: 0 }",
        ..PLAIN
    },
    Case {
        num_queries: 1 << 30,
        num_openings: 1,
        refusal: "InputOpeningsQueryCountMismatch { batch: 0, expected: 1073741824, got: 0 }",
        ..PLAIN
    },
];

/// A proof without rounds, whose final polynomial is zero, of what is claimed: nothing, or that the
/// only column that is committed to is 9 at the point 2.
fn make_bare(rt: &impl Abort, alloc: Global, case: &Case) -> Made {
    let mut claims = Vec::new(alloc);
    if let Some(log_size) = case.log_size {
        let matrix = matrix_claim(rt, alloc, log_size, 1, Some(9));
        let claim = CommitmentOpening {
            commitment: [0; 32],
            matrices: vec![in alloc; matrix].expect(rt, "memory"),
        };
        claims.push(claim).expect(rt, "memory");
    }
    let mut input_openings = Vec::new(alloc);
    for _ in 0..case.num_openings {
        let opening = BatchMultiOpening {
            opened_values: Vec::new(alloc),
            opening_proof: Vec::new(alloc),
        };
        input_openings.push(opening).expect(rt, "memory");
    }
    let proof = FriProof {
        batch_pow_witness: BabyBear::ZERO,
        commit_phase_commits: Vec::new(alloc),
        commit_pow_witnesses: Vec::new(alloc),
        input_openings,
        commit_phase_openings: Vec::new(alloc),
        final_poly: vec![in alloc; BabyBear4::ZERO].expect(rt, "memory"),
        query_pow_witness: BabyBear::ZERO,
    };
    Made {
        proof,
        claims,
        start: 1,
        last: challenger_after(1),
    }
}

/// Whether the bare proof of that claim, or of none, is refused so by a new challenger.
fn is_met(rt: &impl Abort, alloc: Global, case: &Case) -> bool {
    let made = make_bare(rt, alloc, case);
    let mut parameters = plain_parameters();
    parameters.num_queries = case.num_queries;
    parameters.log_blowup = case.log_blowup;
    parameters.max_log_arity = case.max_log_arity;
    parameters.log_final_poly_len = case.log_final_poly_len;
    is_answer(
        rt,
        alloc,
        &parameters,
        0,
        &made,
        Some(case.refusal),
        Left::Anywhere,
    )
}

#[test]
fn instances_are_refused_by_name(rt: HostRuntime) {
    for case in &CASES {
        assert!(rt; is_met(&rt, rt.alloc(), case), "{}", case.refusal);
    }
}
