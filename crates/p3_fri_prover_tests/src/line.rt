//! Words of a falling line, proved and verified, and those that are too low.

use crate::changes::Change;
use crate::proofs::{
    FALLING, ONE_WORD, TWO_WORDS, Words, committed, constant, parameters_of, prove,
    prove_and_verify,
};
use p3_challenger::Sha256Challenger;
use p3_fri_folding::FriProverError;
use std::alloc::Global;
use std::process::Abort;

/// Whether the column's proof has the final polynomial -1, is accepted by a verifier that ends as
/// the prover, and isn't with another polynomial.
fn is_proved(rt: &impl Abort, alloc: Global) -> bool {
    let (shape, bits) = ((1, 1, 0), (0, 0, 3));
    let honest = prove_and_verify(rt, alloc, &FALLING, &shape, &bits, Change::Nothing);
    let changed = prove_and_verify(rt, alloc, &FALLING, &shape, &bits, Change::Polynomial);
    honest.coefficients == 1
        && honest.constant == Some(constant(2_013_265_920))
        && honest.is_accepted
        && honest.ends_agree
        && !changed.is_accepted
}

#[test]
fn two_minus_the_point_is_proved_and_verified(rt: HostRuntime) {
    assert!(rt; is_proved(&rt, rt.alloc()));
}

/// Whether its proof with work has one witness of a round, is accepted by a verifier that ends as
/// the prover, and isn't with another witness of the queries.
fn is_proved_with_work(rt: &impl Abort, alloc: Global) -> bool {
    let (shape, bits) = ((1, 1, 0), (3, 3, 3));
    let honest = prove_and_verify(rt, alloc, &FALLING, &shape, &bits, Change::Nothing);
    let changed = prove_and_verify(rt, alloc, &FALLING, &shape, &bits, Change::QueryWitness);
    honest.witnesses == 1 && honest.is_accepted && honest.ends_agree && !changed.is_accepted
}

#[test]
fn a_word_is_proved_with_work(rt: HostRuntime) {
    assert!(rt; is_proved_with_work(&rt, rt.alloc()));
}

/// The logarithm of the final polynomial's length, the words, and the refusal.
type Low = (usize, Words, FriProverError);

static LOW: [Low; 4] = [
    (
        2,
        ONE_WORD,
        FriProverError::InputHeightTooSmall {
            log_input_height: 2,
            log_final_height: 3,
        },
    ),
    (
        1,
        ONE_WORD,
        FriProverError::InputHeightTooSmall {
            log_input_height: 2,
            log_final_height: 2,
        },
    ),
    (
        1,
        TWO_WORDS,
        FriProverError::InputHeightTooSmall {
            log_input_height: 2,
            log_final_height: 2,
        },
    ),
    (usize::MAX, ONE_WORD, FriProverError::FinalHeightOverflow),
];

/// Whether these words are refused so with such a final polynomial, and the challenger is left as
/// it was.
fn are_refused(rt: &impl Abort, alloc: Global, case: &Low) -> bool {
    let (log_final_poly_len, words, refusal) = case;
    let parameters = parameters_of(&(1, 1, *log_final_poly_len), &(0, 0, 3));
    let (_claims, data) = committed(rt, alloc, &FALLING, 1);
    let mut challenger = Sha256Challenger::new();
    let answer = prove(rt, alloc, &parameters, 3, words, &data, &mut challenger);
    answer.err() == Some(*refusal) && challenger == Sha256Challenger::new()
}

#[test]
fn a_low_word_is_refused_before_the_challenger_is_touched(rt: HostRuntime) {
    for case in &LOW {
        assert!(rt; are_refused(&rt, rt.alloc(), case), "{case:?}");
    }
}
