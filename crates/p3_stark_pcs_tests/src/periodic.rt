//! Tables of periodic columns along a trace of 8 rows, on the coset of 31 of 16 points.

use crate::columns::coset;
use crate::parts::Part;
use crate::tested::Tested;
use p3_field::{BabyBear, Field};
use p3_periodic::{PeriodicError, PeriodicLdeTable};
use std::alloc::Global;
use std::process::Abort;

/// Columns, and what comes of them.
#[derive(Clone, Copy)]
pub(crate) struct Table {
    columns: &'static [&'static [u64]],
    outcome: Outcome,
}

#[derive(Clone, Copy)]
enum Outcome {
    /// A table of this height, with these entries by index and column.
    Made(usize, &'static [(usize, usize, Option<u64>)]),
    Refused(PeriodicError),
}

pub(crate) static PARTS: [Part; 5] = [
    // at the points 31 and -31 times a root of order 4 the values are `2 - 31^4` and `2 + 31^4`
    // a column of two
    Part::Periodic(Table {
        columns: &[&[1, 3]],
        outcome: Outcome::Made(
            4,
            &[
                (0, 0, Some(2_012_342_402)),
                (2, 0, Some(923_523)),
                (14, 0, Some(923_523)),
                (0, 1, None),
            ],
        ),
    }),
    // a constant
    Part::Periodic(Table {
        columns: &[&[5]],
        outcome: Outcome::Made(2, &[(0, 0, Some(5)), (1, 0, Some(5))]),
    }),
    // no columns
    Part::Periodic(Table {
        columns: &[],
        outcome: Outcome::Made(0, &[(0, 0, None)]),
    }),
    // a length that isn't a power of two
    Part::Periodic(Table {
        columns: &[&[1, 2, 3]],
        outcome: Outcome::Refused(PeriodicError::NotPowerOfTwo {
            column: 0,
            length: 3,
        }),
    }),
    // a length that doesn't divide the trace's height
    Part::Periodic(Table {
        columns: &[&[5], &[1; 16], &[]],
        outcome: Outcome::Refused(PeriodicError::DoesNotDivide {
            column: 1,
            length: 16,
            trace_height: 8,
        }),
    }),
];

/// Columns of these numbers.
fn columns_of(rt: &impl Abort, alloc: Global, each: &[&[u64]]) -> Vec<Vec<BabyBear>> {
    let mut columns = Vec::new(alloc);
    for numbers in each {
        let mut column = Vec::new(alloc);
        for number in *numbers {
            column
                .push(BabyBear::from_u64(*number))
                .expect(rt, "memory");
        }
        columns.push(column).expect(rt, "memory");
    }
    columns
}

/// Whether the table has these entries.
fn has_entries(
    table: &PeriodicLdeTable<BabyBear>,
    entries: &[(usize, usize, Option<u64>)],
) -> bool {
    for (index, column, number) in entries {
        let expected = match number {
            Some(number) => Some(BabyBear::from_u64(*number)),
            None => None,
        };
        if table.get(*index, *column) != expected {
            return false;
        }
    }
    true
}

/// Whether that came of it.
fn is_outcome(made: Result<PeriodicLdeTable<BabyBear>, PeriodicError>, outcome: Outcome) -> bool {
    match (made, outcome) {
        (Ok(table), Outcome::Made(height, entries)) => {
            table.height() == height && has_entries(&table, entries)
        },
        (Err(refusal), Outcome::Refused(expected)) => refusal == expected,
        _ => false,
    }
}

/// Whether that comes of the columns.
pub(crate) fn is_tabulated<P: Tested>(
    rt: &impl Abort,
    alloc: Global,
    scheme: P,
    table: &Table,
) -> bool
    requires { P.IsTested scheme }
{
    let columns = columns_of(rt, alloc, table.columns);
    let trace = coset(rt, 1, 3);
    let domain = coset(rt, 31, 4);
    assert!(rt;
        trace.size() <= domain.size(),
        "the domain is smaller than the trace's"
    );
    let made = scheme.build_periodic_lde_table(alloc, &columns, trace, domain);
    is_outcome(made, table.outcome)
}
