//! Numbers that were computed by hand.

use fri_soundness_error::{BatchError, RoundError, soundness_error, tallest_of};
use p3_fri_folding::{FriParameters, is_strictly_falling};
use std::alloc::Global;
use std::process::Abort;

/// The numbers of a round in the order of its fields, and whether it has room.
type Round = ([usize; 4], u128, bool);

/// The numbers of a batch in the order of its fields, and whether it has room.
type Batch = ([usize; 3], u128, bool);

/// An instance with a final polynomial of `2^log_final_poly_len` coefficients, and the numbers of
/// its rounds and batches.
struct Case {
    name: &'static str,
    log_final_poly_len: usize,
    max_log_arity: usize,
    heights: &'static [usize],
    columns: &'static [usize],
    failing: usize,
    rounds: &'static [Round],
    batches: &'static [Batch],
}

/// The instances, each with a blowup of two.
static CASES: [Case; 4] = [
    Case {
        name: "no matrix",
        log_final_poly_len: 0,
        max_log_arity: 1,
        heights: &[],
        columns: &[],
        failing: 7,
        rounds: &[],
        batches: &[],
    },
    Case {
        name: "an input in the first round",
        log_final_poly_len: 0,
        max_log_arity: 1,
        heights: &[3, 2],
        columns: &[1, 2],
        failing: 1,
        rounds: &[([2, 1, 2, 0], 2, true), ([1, 1, 1, 0], 1, true)],
        batches: &[([3, 1, 1], 0, true), ([2, 2, 0], 1, true)],
    },
    Case {
        name: "too many failing",
        log_final_poly_len: 1,
        max_log_arity: 2,
        heights: &[4],
        columns: &[3],
        failing: 5,
        rounds: &[([2, 2, 3, 1], 6, false)],
        batches: &[([4, 3, 5], 12, false)],
    },
    Case {
        name: "nothing to fold",
        log_final_poly_len: 3,
        max_log_arity: 1,
        heights: &[4],
        columns: &[2],
        failing: 2,
        rounds: &[],
        batches: &[([4, 2, 2], 3, true)],
    },
];

/// Whether a round has these numbers.
fn is_round(found: &RoundError, expected: &Round) -> bool {
    let numbers = [
        found.log_height,
        found.log_arity,
        found.degree,
        found.failing_rows,
    ];
    found.log_height < 64 && (numbers, found.bad_challenges, found.has_room(1)) == *expected
}

/// Whether a batch has these numbers.
fn is_batch(found: &BatchError, expected: &Batch) -> bool {
    let numbers = [found.log_height, found.columns, found.failing_rows];
    found.log_height < 64 && (numbers, found.bad_challenges, found.has_room(1)) == *expected
}

/// Whether an instance has its numbers.
fn is_right(rt: &impl Abort, alloc: Global, case: &Case) -> bool {
    let mut parameters = FriParameters::new_testing((), case.log_final_poly_len);
    parameters.log_blowup = 1;
    parameters.max_log_arity = case.max_log_arity;
    assert!(rt;
        is_strictly_falling(case.heights)
            && tallest_of(case.heights) < 64
            && parameters.max_log_arity != 0
            && parameters.log_final_poly_len < 64
            && case.columns.len() == case.heights.len(),
        "there is no such instance"
    );
    let error = soundness_error(alloc, &parameters, case.heights, case.columns, case.failing);
    let error = error.expect(rt, "memory");
    let mut right = error.rounds.len() == case.rounds.len()
        && error.batches.len() == case.batches.len();
    for (found, expected) in error.rounds.iter().zip(case.rounds) {
        right = right && is_round(found, expected);
    }
    for (found, expected) in error.batches.iter().zip(case.batches) {
        right = right && is_batch(found, expected);
    }
    right
}

#[test]
fn numbers_are_those_by_hand(rt: HostRuntime) {
    for case in &CASES {
        assert!(rt; is_right(&rt, rt.alloc(), case), "{}", case.name);
    }
}
