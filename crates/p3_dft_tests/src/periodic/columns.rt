//! Tables of columns of numbers.

use crate::column::column_of;
use p3_field::BabyBear;
use p3_periodic::PeriodicColumns;
use std::alloc::Global;
use std::process::Abort;

/// A table of columns of these numbers.
pub(crate) fn columns_of(rt: &impl Abort, alloc: Global, columns: &[&[u64]]) -> Vec<Vec<BabyBear>> {
    let mut table = Vec::new(alloc);
    for numbers in columns {
        table
            .push(column_of(rt, alloc, *numbers))
            .expect(rt, "memory");
    }
    table
}

/// The greatest period along 8 rows, and twice the number of columns, unless they are refused.
fn period_and_counts(table: &[Vec<BabyBear>]) -> Option<(Option<usize>, usize, usize)> {
    match PeriodicColumns::new(table, 8) {
        Ok(columns) => Some((
            columns.max_period(),
            columns.len(),
            columns.as_slice().len(),
        )),
        Err(_) => None,
    }
}

#[test]
fn the_greatest_period(rt: HostRuntime) {
    let none = columns_of(&rt, rt.alloc(), &[]);
    let three = columns_of(&rt, rt.alloc(), &[&[5], &[1, 2, 3, 4], &[1, 3]]);
    assert!(rt; period_and_counts(&none) == Some((None, 0, 0)));
    assert!(rt; period_and_counts(&three) == Some((Some(4), 3, 3)));
}
