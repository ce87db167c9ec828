//! Claims with random values, verified with a proof that opens nothing.

ghost use Rattle.p3_fri_relation.specs.Views.{parameters_of};
ghost use Rattle.p3_fri_two_adic.specs.Ranges.{InVerifierRange};

use crate::claims::{Claimed, claims_of};
use crate::numbers::numbered_all;
use p3_challenger::Sha256Challenger;
use p3_field::{BabyBear, BabyBear4, Field};
use p3_fri_folding::FriParameters;
use p3_fri_hiding_openings::{HidingVerifierSetting, verify_with_random_values};
use p3_fri_relation::proof::{BatchMultiOpening, FriProof};
use p3_mmcs::Sha256Mmcs;
use std::alloc::Global;
use std::process::Abort;

type Inputs = Sha256Mmcs<BabyBear>;

type Rounds = Sha256Mmcs<BabyBear4>;

type Proof = FriProof<BabyBear4, Rounds, BabyBear, Vec<BatchMultiOpening<BabyBear, Inputs>>>;

/// Two queries, a blowup of 2, folds by two to a constant, and no proof of work.
fn parameters() -> FriParameters<Rounds>
    ensures { InVerifierRange (parameters_of result) 27 63 }
{
    FriParameters {
        log_blowup: 1,
        log_final_poly_len: 0,
        max_log_arity: 1,
        num_queries: 2,
        batch_proof_of_work_bits: 0,
        commit_proof_of_work_bits: 0,
        query_proof_of_work_bits: 0,
        mmcs: Sha256Mmcs::new(),
    }
}

/// A proof without rounds and openings.
fn empty_proof(alloc: Global) -> Proof {
    FriProof {
        batch_pow_witness: BabyBear::ZERO,
        commit_phase_commits: Vec::new(alloc),
        commit_pow_witnesses: Vec::new(alloc),
        input_openings: Vec::new(alloc),
        commit_phase_openings: Vec::new(alloc),
        final_poly: Vec::new(alloc),
        query_pow_witness: BabyBear::ZERO,
    }
}

/// Preprocessing and a private matrix, each of one column and opened at a point.
const CLAIMED: Claimed = &[&[(5, &[1])], &[(5, &[1])]];

/// How many random codewords the verifier has, how many random values are given by commitment,
/// matrix and point, and the fault of these, if they have one.
#[derive(Clone, Copy, Debug)]
struct Case {
    codewords: usize,
    random: &'static [&'static [&'static [usize]]],
    fault: Option<&'static str>,
}

static CASES: [Case; 4] = [
    Case {
        codewords: 4,
        random: &[&[&[4]], &[&[4]]],
        fault: Some(
            "HidingRandomOpeningValueCountMismatch { round: 0, matrix: 0, point: 0, expected: 0, \
             got: 4 }",
        ),
    },
    Case {
        codewords: 4,
        random: &[&[&[0]], &[&[4]]],
        fault: None,
    },
    Case {
        codewords: 5,
        random: &[&[&[0]], &[&[4]]],
        fault: Some(
            "HidingRandomOpeningValueCountMismatch { round: 1, matrix: 0, point: 0, expected: 5, \
             got: 4 }",
        ),
    },
    Case {
        codewords: 8,
        random: &[&[&[0]], &[&[4]]],
        fault: Some(
            "HidingRandomOpeningValueCountMismatch { round: 1, matrix: 0, point: 0, expected: 8, \
             got: 4 }",
        ),
    },
];

/// Whether an empty proof is refused beside these random values for their fault, which leaves the
/// challenger as it was, or for one of its own.
fn is_refused(rt: &impl Abort, alloc: Global, case: &Case) -> bool {
    let claims = claims_of(rt, alloc, [0; 32], CLAIMED);
    let random = numbered_all(rt, alloc, case.random, 101);
    let proof = empty_proof(alloc);
    let mut challenger = Sha256Challenger::new();
    let params = parameters();
    let input_mmcs = Inputs::new();
    let setting = HidingVerifierSetting {
        params: &params,
        input_mmcs: &input_mmcs,
        num_random_codewords: case.codewords,
        preprocessing: Some(0),
    };
    let answer = verify_with_random_values(
        alloc,
        &setting,
        claims,
        random.as_slice(),
        &proof,
        &mut challenger,
    );
    let refusal = answer.expect_err(rt, "the empty proof is accepted");
    let text = format!(in alloc; "{refusal:?}").expect(rt, "memory");
    match case.fault {
        Some(fault) => text.as_str() == fault && challenger == Sha256Challenger::new(),
        None => !text.as_str().starts_with("HidingRandomOpening"),
    }
}

#[test]
fn random_values_are_looked_at_before_the_proof(rt: HostRuntime) {
    for case in &CASES {
        assert!(rt; is_refused(&rt, rt.alloc(), case), "{case:?}");
    }
}
