//! Proofs made by hand as they are, with what the verifier answers.

use crate::answers::{Left, is_answer};
use crate::honest::{LINES, Setting, make_honest, parameters_of};
use crate::lists::{Change, List, change_list};
use p3_field::{BabyBear, Field};
use std::alloc::Global;
use std::process::Abort;

/// What becomes of a proof.
#[derive(Clone, Copy)]
pub(crate) enum Changed {
    Nothing,
    List(List, Change),
    /// Its batch witness is one.
    BatchWitness,
}

/// A proof, with what the verifier answers where it asks for a proof of work of so many bits before
/// the queries, which the proof doesn't have, and draws so many extra bits.
#[derive(Clone, Copy)]
pub(crate) struct Case {
    pub name: &'static str,
    pub setting: Setting,
    pub changed: Changed,
    pub query_bits: usize,
    pub extra_bits: usize,
    pub expected: Option<&'static str>,
    pub left: Left,
}

/// A proof that is accepted as it is.
pub(crate) const ACCEPTED: Case = Case {
    name: "columns that hold the points",
    setting: LINES,
    changed: Changed::Nothing,
    query_bits: 0,
    extra_bits: 0,
    expected: Some("accepted"),
    left: Left::AtTheEnd,
};

/// Two rounds, which fold by four and by two to a final polynomial of two coefficients.
pub(crate) const TWO_ROUNDS: Setting = Setting {
    log_size: 4,
    max_log_arity: 2,
    log_arities: &[2, 1],
    log_final_poly_len: 1,
    ..LINES
};

/// Columns that hold 9: the proof needs no round, and its final polynomial is zero.
const NINES: Setting = Setting {
    is_line: false,
    claimed: Some(9),
    log_size: 0,
    log_arities: &[],
    ..LINES
};

/// Three bits more than the positions have are drawn with each index.
const THREE_EXTRA_BITS: Setting = Setting {
    log_size: 4,
    log_arities: &[1, 1, 1],
    log_final_poly_len: 1,
    extra_bits: 3,
    ..LINES
};

static CASES: [Case; 9] = [
    Case {
        name: "constant columns",
        setting: NINES,
        ..ACCEPTED
    },
    Case {
        name: "another value of constant columns",
        setting: Setting {
            claimed: Some(8),
            ..NINES
        },
        expected: Some("FinalPolyMismatch"),
        ..ACCEPTED
    },
    Case {
        name: "no value of constant columns",
        setting: Setting {
            claimed: None,
            ..NINES
        },
        expected: Some("MatrixWithoutOpeningPoints { batch: 0, matrix: 0 }"),
        ..ACCEPTED
    },
    Case {
        name: "two rounds",
        setting: TWO_ROUNDS,
        ..ACCEPTED
    },
    Case {
        name: "a missing proof of work",
        setting: TWO_ROUNDS,
        query_bits: 16,
        expected: Some("InvalidPowWitness(Query)"),
        left: Left::Anywhere,
        ..ACCEPTED
    },
    Case {
        name: "a batch witness at no bits",
        changed: Changed::BatchWitness,
        expected: Some("NonCanonicalPowWitness { phase: Batch }"),
        left: Left::Unmoved,
        ..ACCEPTED
    },
    Case {
        name: "three extra bits",
        setting: THREE_EXTRA_BITS,
        extra_bits: 3,
        ..ACCEPTED
    },
    Case {
        name: "three extra bits that aren't drawn",
        setting: THREE_EXTRA_BITS,
        expected: None,
        left: Left::Anywhere,
        ..ACCEPTED
    },
    // after this number the transcript draws the index 13 of four bits, of which two are extra
    Case {
        name: "position 3",
        setting: Setting {
            num_queries: 1,
            log_arities: &[],
            log_final_poly_len: 1,
            extra_bits: 2,
            start: 23,
            drawn: &[13],
            ..LINES
        },
        extra_bits: 2,
        ..ACCEPTED
    },
];

/// Whether this is the answer.
pub(crate) fn is_met(rt: &impl Abort, alloc: Global, case: &Case) -> bool {
    let mut made = make_honest(rt, alloc, &case.setting);
    match case.changed {
        Changed::Nothing => {},
        Changed::List(list, change) => change_list(rt, alloc, &mut made.proof, list, change),
        Changed::BatchWitness => made.proof.batch_pow_witness = BabyBear::ONE,
    }
    let mut parameters = parameters_of(&case.setting);
    parameters.query_proof_of_work_bits = case.query_bits;
    is_answer(
        rt,
        alloc,
        &parameters,
        case.extra_bits,
        &made,
        case.expected,
        case.left,
    )
}

#[test]
fn proofs_by_hand_are_answered(rt: HostRuntime) {
    for case in &CASES {
        assert!(rt; is_met(&rt, rt.alloc(), case), "{}", case.name);
    }
}
