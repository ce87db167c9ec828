//! Proofs made and verified in both schemes. What is expected are the lines that
//! `tools/relation/stark_cases.py` prints, a program apart.

use crate::commits::outcome_of_commitment;
use crate::instances::System;
use crate::outcomes::{Change, Outcome, outcome_of};
use crate::schemes::{Hiding, Plain, Tested};
use std::alloc::Global;
use std::process::Abort;

/// What a scheme is asked.
#[derive(Clone, Copy)]
enum Asked {
    /// To commit to a trace.
    Commitment,
    /// To prove the system's trace of so many rows, with this change.
    Proof(System, usize, Change),
}

/// The least height at which the hiding scheme opens a trace at two points with two queries.
const HEIGHT: usize = 32;

/// What is asked, and what comes of it in the plain scheme and in the hiding one. There are systems
/// whose traces are proved, some with fewer rows, and a height or a change that is refused.
static CASES: [(Asked, Outcome, Outcome); 21] = [
    (Asked::Commitment, Outcome::Committed, Outcome::Committed),
    (
        Asked::Proof(System::Fibonacci, HEIGHT, Change::Nothing),
        Outcome::Accepted(0x11bda193621c827d),
        Outcome::Accepted(0x3b4479a2707829b6),
    ),
    (
        Asked::Proof(System::RangeCheck, HEIGHT, Change::Nothing),
        Outcome::Accepted(0x27f48ffd56bceef7),
        Outcome::Accepted(0x682501e39390feb5),
    ),
    (
        Asked::Proof(System::Cubes, HEIGHT, Change::Nothing),
        Outcome::Accepted(0x5947052d08603340),
        Outcome::Accepted(0x2cf281128d52fc6d),
    ),
    (
        Asked::Proof(System::Powers, HEIGHT, Change::Nothing),
        Outcome::Accepted(0x4c7482946337b02d),
        Outcome::Accepted(0x58e886fef629a02e),
    ),
    (
        Asked::Proof(System::Empty, HEIGHT, Change::Nothing),
        Outcome::Accepted(0x2876d89d009b8fb0),
        Outcome::Accepted(0x79d7fef43f602b90),
    ),
    (
        Asked::Proof(System::Empty, 1, Change::Nothing),
        Outcome::Accepted(0x46e427200b0ad36a),
        Outcome::NotCommitted,
    ),
    (
        Asked::Proof(System::RangeCheck, 1, Change::Nothing),
        Outcome::Accepted(0x7ab1046667be19ed),
        Outcome::NotCommitted,
    ),
    (
        Asked::Proof(System::Fibonacci, 2, Change::Nothing),
        Outcome::Accepted(0x527175818e1f7187),
        Outcome::NotCommitted,
    ),
    (
        Asked::Proof(System::RangeCheck, 8, Change::Nothing),
        Outcome::Accepted(0x2d256e4440e21acc),
        Outcome::NotCommitted,
    ),
    (
        Asked::Proof(System::Fibonacci, 16, Change::Nothing),
        Outcome::Accepted(0x7326455954d5126a),
        Outcome::NotOpened,
    ),
    (
        Asked::Proof(System::Empty, 0, Change::Nothing),
        Outcome::NoRoom,
        Outcome::NoRoom,
    ),
    (
        Asked::Proof(System::Fibonacci, 3, Change::Nothing),
        Outcome::NoRoom,
        Outcome::NoRoom,
    ),
    (
        Asked::Proof(System::Fibonacci, HEIGHT, Change::Entry(7, 0)),
        Outcome::Unsatisfied {
            row: 6,
            constraint: 2,
        },
        Outcome::Unsatisfied {
            row: 6,
            constraint: 2,
        },
    ),
    (
        Asked::Proof(System::RangeCheck, HEIGHT, Change::Entry(31, 2)),
        Outcome::Unsatisfied {
            row: 31,
            constraint: 2,
        },
        Outcome::Unsatisfied {
            row: 31,
            constraint: 2,
        },
    ),
    (
        Asked::Proof(System::Cubes, HEIGHT, Change::Entry(0, 0)),
        Outcome::Unsatisfied {
            row: 0,
            constraint: 0,
        },
        Outcome::Unsatisfied {
            row: 0,
            constraint: 0,
        },
    ),
    (
        Asked::Proof(System::Powers, HEIGHT, Change::Entry(31, 0)),
        Outcome::Unsatisfied {
            row: 30,
            constraint: 0,
        },
        Outcome::Unsatisfied {
            row: 30,
            constraint: 0,
        },
    ),
    (
        Asked::Proof(System::Cubes, HEIGHT, Change::Period),
        Outcome::NotPeriodic,
        Outcome::NotPeriodic,
    ),
    (
        Asked::Proof(System::Fibonacci, HEIGHT, Change::PublicValue(2)),
        Outcome::OpeningRefused,
        Outcome::OpeningRefused,
    ),
    (
        Asked::Proof(System::Cubes, HEIGHT, Change::PublicValue(1)),
        Outcome::OpeningRefused,
        Outcome::OpeningRefused,
    ),
    (
        Asked::Proof(System::RangeCheck, HEIGHT, Change::OpenedValue),
        Outcome::OpeningRefused,
        Outcome::OpeningRefused,
    ),
];

/// What comes of it by a scheme.
fn answer_of<P: Tested>(rt: &impl Abort, alloc: Global, asked: Asked) -> Outcome {
    match asked {
        Asked::Commitment => outcome_of_commitment::<P>(rt, alloc),
        Asked::Proof(system, height, change) => outcome_of::<P>(rt, alloc, system, height, change),
    }
}

#[test]
fn proofs_are_verified_or_refused(rt: HostRuntime) {
    let alloc = rt.alloc();
    for (index, (asked, plain, hiding)) in CASES.iter().enumerate() {
        let found = (
            answer_of::<Plain>(&rt, alloc, *asked),
            answer_of::<Hiding>(&rt, alloc, *asked),
        );
        assert!(rt; found == (*plain, *hiding), "case {index}");
    }
}
