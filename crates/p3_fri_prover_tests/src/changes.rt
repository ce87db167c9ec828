//! What is changed in a proof.

use crate::proofs::{Proof, RoundOpening, constant};
use p3_field::{BabyBear, BabyBear4, Field};

#[derive(Clone, Copy, Debug)]
pub(crate) enum Change {
    Nothing,
    Polynomial,
    Sibling,
    Coefficient,
    Commitment,
    CommitWitness,
    QueryWitness,
}

/// Adds one to the first sibling.
fn change_sibling(openings: &mut [RoundOpening]) {
    let Some(round) = openings.first_mut() else {
        return;
    };
    let Some(siblings) = round.sibling_values.first_mut() else {
        return;
    };
    if let Some(sibling) = siblings.first_mut() {
        *sibling = *sibling + BabyBear4::ONE;
    }
}

/// Makes that change: another final polynomial, or one more in the first of its kind.
pub(crate) fn change_proof(proof: &mut Proof, change: Change) {
    match change {
        Change::Nothing => {},
        Change::Polynomial => proof.final_poly.fill(constant(1)),
        Change::Sibling => change_sibling(&mut proof.commit_phase_openings),
        Change::Coefficient => {
            if let Some(coefficient) = proof.final_poly.first_mut() {
                *coefficient = *coefficient + BabyBear4::ONE;
            }
        },
        Change::Commitment => {
            if let Some(commitment) = proof.commit_phase_commits.first_mut() {
                commitment[0] ^= 1;
            }
        },
        Change::CommitWitness => {
            if let Some(witness) = proof.commit_pow_witnesses.first_mut() {
                *witness = *witness + BabyBear::ONE;
            }
        },
        Change::QueryWitness => {
            proof.query_pow_witness = proof.query_pow_witness + BabyBear::ONE;
        },
    }
}
