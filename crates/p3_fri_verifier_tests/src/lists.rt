//! An honest proof with each kind of its lists cut, lengthened or emptied, and the refusal's name.

use crate::answers::{Left, Proof, constant};
use crate::cases::{ACCEPTED, Case, Changed, TWO_ROUNDS, is_met};
use p3_field::{BabyBear, Field};
use p3_fri_relation::proof::{BatchMultiOpening, CommitPhaseMultiStep};
use std::alloc::Global;
use std::process::Abort;

/// Which of lists in a list.
#[derive(Clone, Copy)]
pub(crate) enum Level {
    Outer,
    /// The first of the inner ones.
    Inner,
}

/// A list of a proof; of the rounds, commitments, queries and matrices that have one each, the
/// first's.
#[derive(Clone, Copy)]
pub(crate) enum List {
    Rounds,
    Commitments,
    CommitWitnesses,
    FinalPoly,
    Siblings(Level),
    RoundPaths(Level),
    Inputs,
    RowSets,
    Rows(Level),
    InputPaths(Level),
}

/// What becomes of a list.
#[derive(Clone, Copy)]
pub(crate) enum Change {
    Cut,
    Lengthened,
    Emptied,
}

static CHANGES: [Change; 3] = [Change::Cut, Change::Lengthened, Change::Emptied];

fn changed<T: Drop>(rt: &impl Abort, list: &mut Vec<T>, change: Change, more: T) {
    match change {
        Change::Cut => {
            let _last = list.pop();
        },
        Change::Lengthened => list.push(more).expect(rt, "memory"),
        Change::Emptied => list.clear(),
    }
}

/// The first of a list that isn't empty.
fn first<'a, T>(rt: &impl Abort, list: &'a mut Vec<T>) -> &'a mut T {
    list.get_mut(0).expect(rt, "an empty list")
}

/// Changes lists in a list.
fn changed_at<T: Drop>(
    rt: &impl Abort,
    alloc: Global,
    lists: &mut Vec<Vec<T>>,
    level: Level,
    change: Change,
    more: T,
) {
    match level {
        Level::Outer => changed(rt, lists, change, Vec::new(alloc)),
        Level::Inner => changed(rt, first(rt, lists), change, more),
    }
}

/// Changes a list of the proof.
pub(crate) fn change_list(
    rt: &impl Abort,
    alloc: Global,
    proof: &mut Proof,
    list: List,
    change: Change,
) {
    match list {
        List::Rounds => {
            let more = CommitPhaseMultiStep {
                sibling_values: Vec::new(alloc),
                opening_proof: Vec::new(alloc),
            };
            changed(rt, &mut proof.commit_phase_openings, change, more);
        },
        List::Commitments => changed(rt, &mut proof.commit_phase_commits, change, [0; 32]),
        List::CommitWitnesses => {
            changed(rt, &mut proof.commit_pow_witnesses, change, BabyBear::ZERO);
        },
        List::FinalPoly => changed(rt, &mut proof.final_poly, change, constant(0)),
        List::Siblings(level) => {
            let rows = &mut first(rt, &mut proof.commit_phase_openings).sibling_values;
            changed_at(rt, alloc, rows, level, change, constant(400));
        },
        List::RoundPaths(level) => {
            let paths = &mut first(rt, &mut proof.commit_phase_openings).opening_proof;
            changed_at(rt, alloc, paths, level, change, [0; 32]);
        },
        List::Inputs => {
            let more = BatchMultiOpening {
                opened_values: Vec::new(alloc),
                opening_proof: Vec::new(alloc),
            };
            changed(rt, &mut proof.input_openings, change, more);
        },
        List::RowSets => {
            let opening = first(rt, &mut proof.input_openings);
            changed(rt, &mut opening.opened_values, change, Vec::new(alloc));
        },
        List::Rows(level) => {
            let opening = first(rt, &mut proof.input_openings);
            let rows = first(rt, &mut opening.opened_values);
            changed_at(rt, alloc, rows, level, change, BabyBear::ONE);
        },
        List::InputPaths(level) => {
            let paths = &mut first(rt, &mut proof.input_openings).opening_proof;
            changed_at(rt, alloc, paths, level, change, [0; 32]);
        },
    }
}

/// What the verifier answers to each change of a list whose length the parameters and the claims
/// fix.
static COUNTED: [(List, [&str; 3]); 8] = [
    (
        List::Rounds,
        [
            "CommitPhaseOpeningsCountMismatch { expected: 2, got: 1 }",
            "CommitPhaseOpeningsCountMismatch { expected: 2, got: 3 }",
            "CommitPhaseOpeningsCountMismatch { expected: 2, got: 0 }",
        ],
    ),
    (
        List::Commitments,
        [
            "CommitRoundCountMismatch { expected: 2, got: 1 }",
            "CommitRoundCountMismatch { expected: 2, got: 3 }",
            "CommitRoundCountMismatch { expected: 2, got: 0 }",
        ],
    ),
    (
        List::CommitWitnesses,
        [
            "CommitPowWitnessCountMismatch { expected: 2, got: 1 }",
            "CommitPowWitnessCountMismatch { expected: 2, got: 3 }",
            "CommitPowWitnessCountMismatch { expected: 2, got: 0 }",
        ],
    ),
    (
        List::FinalPoly,
        [
            "FinalPolyLengthMismatch { expected: 2, got: 1 }",
            "FinalPolyLengthMismatch { expected: 2, got: 3 }",
            "FinalPolyLengthMismatch { expected: 2, got: 0 }",
        ],
    ),
    (
        List::Siblings(Level::Outer),
        [
            "CommitPhaseQueryCountMismatch { round: 0, expected: 2, got: 1 }",
            "CommitPhaseQueryCountMismatch { round: 0, expected: 2, got: 3 }",
            "CommitPhaseQueryCountMismatch { round: 0, expected: 2, got: 0 }",
        ],
    ),
    (
        List::Siblings(Level::Inner),
        [
            "SiblingValuesLengthMismatch { round: 0, expected: 3, got: 2 }",
            "SiblingValuesLengthMismatch { round: 0, expected: 3, got: 4 }",
            "SiblingValuesLengthMismatch { round: 0, expected: 3, got: 0 }",
        ],
    ),
    (
        List::Inputs,
        [
            "InputProofBatchCountMismatch { expected: 2, got: 1 }",
            "InputProofBatchCountMismatch { expected: 2, got: 3 }",
            "InputProofBatchCountMismatch { expected: 2, got: 0 }",
        ],
    ),
    (
        List::RowSets,
        [
            "InputOpeningsQueryCountMismatch { batch: 0, expected: 2, got: 1 }",
            "InputOpeningsQueryCountMismatch { batch: 0, expected: 2, got: 3 }",
            "InputOpeningsQueryCountMismatch { batch: 0, expected: 2, got: 0 }",
        ],
    ),
];

/// The same of rows that are opened of one matrix each, and of lists that the schemes refuse.
static OPENED: [(List, [&str; 3]); 6] = [
    (
        List::Rows(Level::Outer),
        [
            "BatchOpenedValuesCountMismatch { batch: 0, expected: 2, got: 1 }",
            "BatchOpenedValuesCountMismatch { batch: 0, expected: 2, got: 3 }",
            "BatchOpenedValuesCountMismatch { batch: 0, expected: 2, got: 0 }",
        ],
    ),
    (List::Rows(Level::Inner), ["InputError(RowWidth)"; 3]),
    (
        List::InputPaths(Level::Outer),
        ["InputError(QueryCount)"; 3],
    ),
    (
        List::InputPaths(Level::Inner),
        ["InputError(PathLength)"; 3],
    ),
    (
        List::RoundPaths(Level::Outer),
        ["CommitPhaseMmcsError(QueryCount)"; 3],
    ),
    (
        List::RoundPaths(Level::Inner),
        ["CommitPhaseMmcsError(PathLength)"; 3],
    ),
];

/// Two rounds as they are, where the answer may leave the challenger anywhere.
static UNCHANGED: Case = Case {
    setting: TWO_ROUNDS,
    left: Left::Anywhere,
    ..ACCEPTED
};

/// Asserts that these are the answers to the changes of an honest proof of two rounds, where the
/// verifier asks for so many bits.
fn assert_answers(
    rt: &impl Abort,
    alloc: Global,
    cases: &[(List, [&'static str; 3])],
    bits: usize,
) {
    for (list, texts) in cases {
        for (index, (change, text)) in CHANGES.iter().zip(texts).enumerate() {
            let case = Case {
                changed: Changed::List(*list, *change),
                query_bits: bits,
                expected: Some(*text),
                ..UNCHANGED
            };
            assert!(rt; is_met(rt, alloc, &case), "{text}, change {index}");
        }
    }
}

/// Lists are counted before work is verified, of 16 bits that the proof doesn't have.
#[test]
fn lists_of_another_length_are_named(rt: HostRuntime) {
    let alloc = rt.alloc();
    assert_answers(&rt, alloc, &COUNTED, 0);
    assert_answers(&rt, alloc, &COUNTED, 16);
    assert_answers(&rt, alloc, &OPENED, 0);
}
