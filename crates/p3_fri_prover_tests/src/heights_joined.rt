//! Words of three heights, each 1 everywhere: the quotients of columns that hold `X`, of which 2 is
//! claimed at 2.

use crate::changes::Change;
use crate::proofs::{Bits, Line, Shape, Words, prove_and_verify};
use std::alloc::Global;
use std::process::Abort;

/// Columns of the log heights 8, 7 and 6.
const RISING: Line = Line {
    at_zero: 0,
    point: 2,
    value: 2,
    words: Words {
        entry: 1,
        log_heights: &[8, 7, 6],
    },
};

/// Whether these words' proof has three rounds and four coefficients, and is accepted by a verifier
/// that ends as the prover.
fn are_proved_in_three_rounds(rt: &impl Abort, alloc: Global) -> bool {
    let honest = prove_and_verify(rt, alloc, &RISING, &(1, 3, 2), &(0, 0, 3), Change::Nothing);
    honest.rounds == 3 && honest.coefficients == 4 && honest.is_accepted && honest.ends_agree
}

#[test]
fn words_of_three_heights_are_proved_and_verified(rt: HostRuntime) {
    assert!(rt; are_proved_in_three_rounds(&rt, rt.alloc()));
}

/// Asserts that these words' proof is accepted with each of these shapes and each of these numbers
/// of bits, both sides ending in one state.
fn assert_agreement(rt: &impl Abort, alloc: Global, shapes: &[Shape], all: &[Bits]) {
    for shape in shapes {
        for bits in all {
            let honest = prove_and_verify(rt, alloc, &RISING, shape, bits, Change::Nothing);
            assert!(rt;
                honest.is_accepted && honest.ends_agree,
                "{shape:?}, {bits:?}"
            );
        }
    }
}

const SHAPES: [Shape; 18] = [
    (1, 1, 0),
    (1, 1, 2),
    (1, 1, 3),
    (1, 2, 0),
    (1, 2, 2),
    (1, 2, 3),
    (1, 3, 0),
    (1, 3, 2),
    (1, 3, 3),
    (2, 1, 0),
    (2, 1, 2),
    (2, 1, 3),
    (2, 2, 0),
    (2, 2, 2),
    (2, 2, 3),
    (2, 3, 0),
    (2, 3, 2),
    (2, 3, 3),
];

const BITS: [Bits; 8] = [
    (0, 0, 0),
    (3, 3, 3),
    (0, 0, 3),
    (0, 3, 0),
    (0, 3, 3),
    (3, 0, 0),
    (3, 0, 3),
    (3, 3, 0),
];

#[test]
fn sides_agree_at_each_blowup_arity_and_final_length(rt: HostRuntime) {
    assert_agreement(&rt, rt.alloc(), &SHAPES, &BITS[..2]);
}

#[test]
fn sides_agree_at_each_number_of_bits(rt: HostRuntime) {
    assert_agreement(&rt, rt.alloc(), &[(1, 2, 2)], &BITS);
}

/// Each change, and whether the proof is accepted with it.
const CHANGES: [(Change, bool); 6] = [
    (Change::Nothing, true),
    (Change::Sibling, false),
    (Change::Coefficient, false),
    (Change::Commitment, false),
    (Change::CommitWitness, false),
    (Change::QueryWitness, false),
];

#[test]
fn a_changed_proof_is_refused(rt: HostRuntime) {
    for (change, accepted) in &CHANGES {
        let changed = prove_and_verify(&rt, rt.alloc(), &RISING, &(1, 2, 2), &(3, 3, 0), *change);
        assert!(rt; changed.is_accepted == *accepted, "{change:?}");
    }
}
