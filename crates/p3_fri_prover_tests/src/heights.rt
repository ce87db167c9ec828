//! Which heights a prover takes.

use p3_fri_folding::{FriParameters, FriProverError};
use p3_fri_prover::prover::validate_input_height;
use std::process::Abort;

/// The logarithm of the final polynomial's length, that of the blowup, a word's log height, and the
/// answer.
type Case = (usize, usize, usize, Result<(), FriProverError>);

const CASES: [Case; 3] = [
    (3, 2, 6, Ok(())),
    (
        3,
        2,
        5,
        Err(FriProverError::InputHeightTooSmall {
            log_input_height: 5,
            log_final_height: 5,
        }),
    ),
    (3, usize::MAX, 6, Err(FriProverError::FinalHeightOverflow)),
];

const CONSTANTS: [Case; 2] = [(0, 2, 0, Ok(())), (0, 2, 27, Ok(()))];

fn assert_all(rt: &impl Abort, cases: &[Case]) {
    for (log_final_poly_len, log_blowup, log_height, expected) in cases {
        let mut params = FriParameters::new_testing(0, *log_final_poly_len);
        params.log_blowup = *log_blowup;
        let is_met = validate_input_height(&params, *log_height) == *expected;
        assert!(rt; is_met, "{log_final_poly_len}, {log_blowup}, {log_height}");
    }
}

#[test]
fn a_word_is_taller_than_the_final_one(rt: HostRuntime) {
    assert_all(&rt, &CASES);
}

#[test]
fn a_constant_polynomial_is_sent_of_any_height(rt: HostRuntime) {
    assert_all(&rt, &CONSTANTS);
}
