//! Traces that satisfy constraint systems, and what is found where one entry is changed.

use crate::systems::{alternating, digits, fibonacci, scaled, selected, unconstrained};
use crate::tables::{Change, Numbers, found};
use p3_air::{Air, TraceError};
use p3_field::BabyBear;
use std::alloc::Global;
use std::process::Abort;

/// Whether this is what is found, as a table has it.
fn is_expected(outcome: Result<(), TraceError>, expected: Option<(usize, usize)>) -> bool {
    match expected {
        Some((row, constraint)) => outcome == Err(TraceError::Unsatisfied { row, constraint }),
        None => outcome.is_ok(),
    }
}

/// Asserts that the trace satisfies the system, and what is found after each of these changes.
fn assert_found(
    rt: &impl Abort,
    alloc: Global,
    air: &Air<BabyBear>,
    numbers: &Numbers,
    changes: &[Change],
) {
    assert!(rt; found(rt, alloc, air, numbers, None).is_ok(), "unchanged");
    for change in changes {
        let outcome = found(rt, alloc, air, numbers, Some(*change));
        assert!(rt; is_expected(outcome, change.3), "{change:?}");
    }
}

static FIBONACCI: Numbers = Numbers {
    trace: &[
        &[0, 1],
        &[1, 1],
        &[1, 2],
        &[2, 3],
        &[3, 5],
        &[5, 8],
        &[8, 13],
        &[13, 21],
    ],
    preprocessed: &[],
    public_values: &[0, 1, 21],
    periodic: &[],
};

static FIBONACCI_CHANGES: [Change; 16] = [
    (0, 0, 4, Some((0, 0))),
    (0, 1, 4, Some((0, 1))),
    (1, 0, 4, Some((0, 2))),
    (1, 1, 4, Some((0, 3))),
    (2, 0, 4, Some((1, 2))),
    (2, 1, 4, Some((1, 3))),
    (3, 0, 4, Some((2, 2))),
    (3, 1, 4, Some((2, 3))),
    (4, 0, 4, Some((3, 2))),
    (4, 1, 4, Some((3, 3))),
    (5, 0, 4, Some((4, 2))),
    (5, 1, 4, Some((4, 3))),
    (6, 0, 4, Some((5, 2))),
    (6, 1, 4, Some((5, 3))),
    (7, 0, 4, Some((6, 2))),
    (7, 1, 4, Some((6, 3))),
];

#[test]
fn fibonacci_numbers(rt: HostRuntime) {
    let air = fibonacci(&rt, rt.alloc());
    assert_found(&rt, rt.alloc(), &air, &FIBONACCI, &FIBONACCI_CHANGES);
}

/// Two rows and one, with public values, and what is found.
static SHORT: [(&[&[u64]], &[u64], Option<(usize, usize)>); 6] = [
    (&[&[0, 1], &[1, 1]], &[0, 1, 1], None),
    (&[&[0, 1], &[1, 1]], &[0, 1, 2], Some((1, 4))),
    (&[&[0, 1], &[1, 1]], &[2, 1, 1], Some((0, 0))),
    (&[&[0, 1]], &[0, 1, 1], None),
    (&[&[0, 1]], &[0, 1, 2], Some((0, 4))),
    (&[&[0, 1]], &[0, 3, 1], Some((0, 1))),
];

#[test]
fn short_traces(rt: HostRuntime) {
    let air = fibonacci(&rt, rt.alloc());
    for (trace, public_values, expected) in &SHORT {
        let numbers = Numbers {
            trace: *trace,
            public_values: *public_values,
            preprocessed: &[],
            periodic: &[],
        };
        let outcome = found(&rt, rt.alloc(), &air, &numbers, None);
        assert!(rt; is_expected(outcome, *expected), "{public_values:?}");
    }
}

static DIGITS: Numbers = Numbers {
    trace: &[&[0, 0, 0, 0], &[5, 1, 0, 1], &[6, 0, 1, 1], &[7, 1, 1, 1]],
    preprocessed: &[],
    public_values: &[],
    periodic: &[],
};

static DIGITS_CHANGES: [Change; 6] = [
    (0, 1, 2, Some((0, 0))),
    (1, 2, 2, Some((1, 1))),
    (2, 3, 2013265920, Some((2, 2))),
    (3, 0, 8, Some((3, 3))),
    (2, 1, 1, Some((2, 3))),
    (1, 3, 0, Some((1, 3))),
];

static SELECTED: Numbers = Numbers {
    trace: &[&[5], &[9], &[5], &[7]],
    preprocessed: &[&[1], &[0], &[1], &[0]],
    public_values: &[],
    periodic: &[],
};

static SELECTED_CHANGES: [Change; 4] = [
    (0, 0, 6, Some((0, 0))),
    (1, 0, 6, None),
    (2, 0, 6, Some((1, 1))),
    (3, 0, 6, None),
];

static SCALED: Numbers = Numbers {
    trace: &[&[1], &[2], &[6], &[12]],
    preprocessed: &[],
    public_values: &[],
    periodic: &[&[2, 3]],
};

static SCALED_CHANGES: [Change; 4] = [
    (0, 0, 5, Some((0, 0))),
    (1, 0, 5, Some((0, 0))),
    (2, 0, 5, Some((1, 0))),
    (3, 0, 5, Some((2, 0))),
];

static ALTERNATING: Numbers = Numbers {
    trace: &[&[3], &[2013265918], &[3], &[2013265918]],
    preprocessed: &[],
    public_values: &[],
    periodic: &[],
};

static ALTERNATING_CHANGES: [Change; 2] = [
    (3, 0, 3, Some((2, 0))),
    (0, 0, 2013265918, Some((0, 0))),
];

#[test]
fn digits_are_zero_or_one(rt: HostRuntime) {
    let air = digits(&rt, rt.alloc());
    assert_found(&rt, rt.alloc(), &air, &DIGITS, &DIGITS_CHANGES);
}

#[test]
fn a_preprocessed_column_selects(rt: HostRuntime) {
    let air = selected(&rt, rt.alloc());
    assert_found(&rt, rt.alloc(), &air, &SELECTED, &SELECTED_CHANGES);
}

#[test]
fn a_periodic_column_scales(rt: HostRuntime) {
    let air = scaled(&rt, rt.alloc());
    assert_found(&rt, rt.alloc(), &air, &SCALED, &SCALED_CHANGES);
}

#[test]
fn the_row_after_the_last_is_the_first(rt: HostRuntime) {
    let air = alternating(&rt, rt.alloc());
    assert_found(&rt, rt.alloc(), &air, &ALTERNATING, &ALTERNATING_CHANGES);
    let odd = Numbers {
        trace: &[&[3], &[2013265918], &[3]],
        ..ALTERNATING
    };
    assert!(rt; is_expected(found(&rt, rt.alloc(), &air, &odd, None), Some((2, 0))));
}

#[test]
fn without_constraints_all_traces_hold(rt: HostRuntime) {
    let air = unconstrained(&rt, rt.alloc());
    assert!(rt; found(&rt, rt.alloc(), &air, &SCALED_ALONE, None).is_ok());
}

static SCALED_ALONE: Numbers = Numbers {
    trace: &[&[1], &[2]],
    preprocessed: &[],
    public_values: &[],
    periodic: &[],
};
