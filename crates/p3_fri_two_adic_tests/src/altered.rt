//! What the verifier answers to other claims and proofs than were made.

use crate::accepted::{LINE, SQUARE};
use crate::asked::{AT_FIVE, Case, Expected, Opening, Question, ask};
use crate::numbers::constant;
use crate::scheme::{Claims, Domain, InputOpening, PLAIN, Proof, RoundOpening};
use crate::work::{refuse_work, set_witness};
use p3_field::{BabyBear, BabyBear4, Field};
use p3_fri_folding::PowPhase;
use p3_mmcs::{CommitmentOpening, MatrixOpening};
use std::alloc::Global;
use std::process::Abort;

/// What is changed in an opening; of the rounds, commitments, matrices, queries and points that it
/// has, at the first.
pub(crate) enum Change {
    Nothing,
    /// Another witness of this phase, that the transcripts refuse.
    RefusedWitness(PowPhase),
    /// The number one as witness of this phase.
    Witness(PowPhase),
    Proof(OfProof),
    Claims(OfClaims),
}

pub(crate) enum OfProof {
    NoRoundOpenings,
    NoRoundCommitments,
    NoRoundWitnesses,
    SecondCoefficient,
    ZeroPolynomial,
    SecondSibling,
    NoSiblings,
    NoRoundPath,
    NoInputOpenings,
    OneRowSet,
    NoRows,
    ShortInputPath,
}

pub(crate) enum OfClaims {
    NoCommitments,
    EmptyCommitment,
    NoPoints,
    /// A domain of this shift and log size.
    OtherDomain(u64, usize),
    Claim,
    /// Of a second matrix, that holds `X^2`, the value stands at the first.
    MovedValue,
}

static CASES: [Case; 2] = [
    Case {
        setting: PLAIN,
        batches: &[&[&LINE]],
        openings: &[
            // lists that are cut, lengthened or emptied
            Opening {
                name: "no round openings",
                change: Change::Proof(OfProof::NoRoundOpenings),
                expected: Expected::Named(
                    "CommitPhaseOpeningsCountMismatch { expected: 1, got: 0 }",
                    false,
                ),
                ..AT_FIVE
            },
            Opening {
                name: "no round commitments",
                change: Change::Proof(OfProof::NoRoundCommitments),
                expected: Expected::Named(
                    "CommitRoundCountMismatch { expected: 1, got: 0 }",
                    false,
                ),
                ..AT_FIVE
            },
            Opening {
                name: "no round witnesses",
                change: Change::Proof(OfProof::NoRoundWitnesses),
                expected: Expected::Named(
                    "CommitPowWitnessCountMismatch { expected: 1, got: 0 }",
                    false,
                ),
                ..AT_FIVE
            },
            Opening {
                name: "a second coefficient",
                change: Change::Proof(OfProof::SecondCoefficient),
                expected: Expected::Named("FinalPolyLengthMismatch { expected: 1, got: 2 }", false),
                ..AT_FIVE
            },
            Opening {
                name: "a second sibling",
                change: Change::Proof(OfProof::SecondSibling),
                expected: Expected::Named(
                    "SiblingValuesLengthMismatch { round: 0, expected: 1, got: 2 }",
                    false,
                ),
                ..AT_FIVE
            },
            Opening {
                name: "no siblings",
                change: Change::Proof(OfProof::NoSiblings),
                expected: Expected::Named(
                    "CommitPhaseQueryCountMismatch { round: 0, expected: 2, got: 0 }",
                    false,
                ),
                ..AT_FIVE
            },
            Opening {
                name: "no round path",
                change: Change::Proof(OfProof::NoRoundPath),
                expected: Expected::Named("CommitPhaseMmcsError(PathLength)", false),
                ..AT_FIVE
            },
            Opening {
                name: "no input openings",
                change: Change::Proof(OfProof::NoInputOpenings),
                expected: Expected::Named(
                    "InputProofBatchCountMismatch { expected: 1, got: 0 }",
                    false,
                ),
                ..AT_FIVE
            },
            Opening {
                name: "one set of rows",
                change: Change::Proof(OfProof::OneRowSet),
                expected: Expected::Named(
                    "InputOpeningsQueryCountMismatch { batch: 0, expected: 2, got: 1 }",
                    false,
                ),
                ..AT_FIVE
            },
            Opening {
                name: "no rows",
                change: Change::Proof(OfProof::NoRows),
                expected: Expected::Named(
                    "BatchOpenedValuesCountMismatch { batch: 0, expected: 1, got: 0 }",
                    false,
                ),
                ..AT_FIVE
            },
            Opening {
                name: "a short input path",
                change: Change::Proof(OfProof::ShortInputPath),
                expected: Expected::Named("InputError(PathLength)", false),
                ..AT_FIVE
            },
            Opening {
                name: "an empty commitment",
                change: Change::Claims(OfClaims::EmptyCommitment),
                expected: Expected::Named(
                    "InputProofBatchCountMismatch { expected: 2, got: 1 }",
                    false,
                ),
                ..AT_FIVE
            },
            Opening {
                name: "no commitments",
                change: Change::Claims(OfClaims::NoCommitments),
                expected: Expected::Named("NoCommittedMatrices", false),
                ..AT_FIVE
            },
            Opening {
                name: "no points",
                change: Change::Claims(OfClaims::NoPoints),
                expected: Expected::Named(
                    "MatrixWithoutOpeningPoints { batch: 0, matrix: 0 }",
                    false,
                ),
                ..AT_FIVE
            },
            Opening {
                name: "the largest domain",
                change: Change::Claims(OfClaims::OtherDomain(1, 27)),
                expected: Expected::Named(
                    "GlobalMaxHeightTooLarge { log_global_max_height: 28, two_adicity: 27 }",
                    false,
                ),
                ..AT_FIVE
            },
            // witnesses that weren't asked for
            Opening {
                name: "a batch witness",
                change: Change::Witness(PowPhase::Batch),
                expected: Expected::Named("NonCanonicalPowWitness { phase: Batch }", true),
                ..AT_FIVE
            },
            Opening {
                name: "a round's witness",
                change: Change::Witness(PowPhase::CommitPhase),
                expected: Expected::Named("NonCanonicalPowWitness { phase: CommitPhase }", true),
                ..AT_FIVE
            },
            Opening {
                name: "a query witness",
                change: Change::Witness(PowPhase::Query),
                expected: Expected::Named("NonCanonicalPowWitness { phase: Query }", true),
                ..AT_FIVE
            },
            // other values
            Opening {
                name: "another claim",
                change: Change::Claims(OfClaims::Claim),
                expected: Expected::Refused,
                ..AT_FIVE
            },
            Opening {
                name: "a polynomial of zero",
                change: Change::Proof(OfProof::ZeroPolynomial),
                expected: Expected::Refused,
                ..AT_FIVE
            },
            AT_FIVE,
            // a claimed shift isn't read
            Opening {
                name: "another shift",
                change: Change::Claims(OfClaims::OtherDomain(31, 1)),
                expected: Expected::Accepted,
                ..AT_FIVE
            },
        ],
    },
    Case {
        setting: PLAIN,
        batches: &[&[&SQUARE, &LINE]],
        openings: &[Opening {
            name: "a value at another matrix",
            points: &[&[&[5], &[5]]],
            change: Change::Claims(OfClaims::MovedValue),
            expected: Expected::Refused,
            ..AT_FIVE
        }],
    },
];

/// Changes a proof.
fn change_proof(rt: &impl Abort, proof: &mut Proof, change: &OfProof) {
    match change {
        OfProof::NoRoundOpenings => proof.commit_phase_openings.clear(),
        OfProof::NoRoundCommitments => proof.commit_phase_commits.clear(),
        OfProof::NoRoundWitnesses => proof.commit_pow_witnesses.clear(),
        OfProof::SecondCoefficient => {
            proof.final_poly.push(BabyBear4::ZERO).expect(rt, "memory");
        },
        OfProof::ZeroPolynomial => proof.final_poly.fill(BabyBear4::ZERO),
        OfProof::SecondSibling | OfProof::NoSiblings | OfProof::NoRoundPath => {
            let round = proof
                .commit_phase_openings
                .get_mut(0)
                .expect(rt, "no round");
            change_round(rt, round, change);
        },
        OfProof::NoInputOpenings => proof.input_openings.clear(),
        _ => {
            let opening = proof.input_openings.get_mut(0).expect(rt, "no opening");
            change_input(rt, opening, change);
        },
    }
}

/// Changes what a round opens.
fn change_round(rt: &impl Abort, round: &mut RoundOpening, change: &OfProof) {
    match change {
        OfProof::SecondSibling => {
            let siblings = round.sibling_values.get_mut(0).expect(rt, "no siblings");
            siblings.push(BabyBear4::ZERO).expect(rt, "memory");
        },
        OfProof::NoSiblings => round.sibling_values.clear(),
        _ => round.opening_proof.get_mut(0).expect(rt, "no path").clear(),
    }
}

/// Changes what is opened of the inputs.
fn change_input(rt: &impl Abort, opening: &mut InputOpening, change: &OfProof) {
    match change {
        OfProof::OneRowSet => opening.opened_values.truncate(1),
        OfProof::NoRows => opening
            .opened_values
            .get_mut(0)
            .expect(rt, "no rows")
            .clear(),
        _ => opening
            .opening_proof
            .get_mut(0)
            .expect(rt, "no path")
            .truncate(1),
    }
}

/// Changes what is claimed of matrices.
fn change_matrices(
    rt: &impl Abort,
    matrices: &mut [MatrixOpening<BabyBear4, Domain>],
    change: &OfClaims,
) {
    let mut moved = None;
    for matrix in matrices.iter_mut() {
        match change {
            OfClaims::NoPoints => matrix.points.clear(),
            OfClaims::OtherDomain(shift, log_size) => {
                let domain = Domain::new(BabyBear::from_u64(*shift), *log_size);
                matrix.domain = domain.expect(rt, "not a domain");
            },
            _ => {
                let opening = matrix.points.get_mut(0).expect(rt, "no point");
                match (change, moved) {
                    (OfClaims::MovedValue, None) => moved = opening.values.pop(),
                    (OfClaims::MovedValue, Some(value)) => {
                        opening.values.push(value).expect(rt, "memory");
                    },
                    _ => opening.values.fill(constant(2_013_265_917)),
                }
            },
        }
    }
}

/// Changes claims.
fn change_claims(rt: &impl Abort, alloc: Global, claims: &mut Claims, change: &OfClaims) {
    match change {
        OfClaims::NoCommitments => claims.clear(),
        OfClaims::EmptyCommitment => {
            let empty = CommitmentOpening {
                commitment: [0; 32],
                matrices: Vec::new(alloc),
            };
            claims.push(empty).expect(rt, "memory");
        },
        _ => {
            let claim = claims.get_mut(0).expect(rt, "no commitment");
            change_matrices(rt, claim.matrices.as_mut_slice(), change);
        },
    }
}

/// Changes what was opened.
pub(crate) fn alter(
    rt: &impl Abort,
    alloc: Global,
    opening: &Opening,
    proof: &mut Proof,
    claims: &mut Claims,
) {
    match &opening.change {
        Change::Nothing => {},
        Change::RefusedWitness(phase) => {
            refuse_work(rt, alloc, opening.setting, *phase, proof, claims);
        },
        Change::Witness(phase) => set_witness(proof, *phase, 1),
        Change::Proof(change) => change_proof(rt, proof, change),
        Change::Claims(change) => change_claims(rt, alloc, claims, change),
    }
}

#[test]
fn altered_openings_are_answered(rt: HostRuntime) {
    ask(&rt, rt.alloc(), Question::Openings(&CASES));
}
