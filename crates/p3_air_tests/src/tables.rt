//! Tables of numbers.

use p3_air::{Air, Assignment, TraceError};
use p3_field::{BabyBear, Field};
use std::alloc::Global;
use std::process::Abort;

/// A trace and what goes with it, as numbers.
#[derive(Clone, Copy, Debug)]
pub(crate) struct Numbers {
    pub trace: &'static [&'static [u64]],
    pub preprocessed: &'static [&'static [u64]],
    pub public_values: &'static [u64],
    pub periodic: &'static [&'static [u64]],
}

/// A row and a column of the trace, what is put there, and what is then found: the first row on
/// which a constraint fails and the number of that constraint, or nothing.
pub(crate) type Change = (usize, usize, u64, Option<(usize, usize)>);

/// The elements of these numbers.
fn elements(rt: &impl Abort, alloc: Global, numbers: &[u64]) -> Vec<BabyBear> {
    let mut elements = Vec::new(alloc);
    for number in numbers {
        elements
            .push(BabyBear::from_u64(*number))
            .expect(rt, "memory");
    }
    elements
}

/// A vector for each of these lists.
fn vectors(rt: &impl Abort, alloc: Global, lists: &[&[u64]]) -> Vec<Vec<BabyBear>> {
    let mut vectors = Vec::new(alloc);
    for numbers in lists {
        vectors
            .push(elements(rt, alloc, numbers))
            .expect(rt, "memory");
    }
    vectors
}

/// What the system finds of these numbers, with one entry of the trace changed if asked for.
pub(crate) fn found(
    rt: &impl Abort,
    alloc: Global,
    air: &Air<BabyBear>,
    numbers: &Numbers,
    change: Option<Change>,
) -> Result<(), TraceError> {
    let mut trace = vectors(rt, alloc, numbers.trace);
    if let Some((row, column, value, _)) = change {
        if row < trace.len() && column < trace[row].len() {
            trace[row][column] = BabyBear::from_u64(value);
        }
    }
    let preprocessed = vectors(rt, alloc, numbers.preprocessed);
    let public_values = elements(rt, alloc, numbers.public_values);
    let periodic = vectors(rt, alloc, numbers.periodic);
    let given = Assignment {
        trace: &trace,
        preprocessed: &preprocessed,
        public_values: &public_values,
        periodic: &periodic,
    };
    assert!(rt; air.check().is_ok(), "malformed");
    air.check_trace(alloc, &given)
}
