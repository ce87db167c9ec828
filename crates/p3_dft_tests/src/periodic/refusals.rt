//! Why tables of columns are refused, by each call.

use crate::periodic::columns::columns_of;
use crate::periodic::points::values_at;
use crate::periodic::tables::{WAYS, table_by};
use p3_field::{BabyBear, Field};
use p3_periodic::{PeriodicColumns, PeriodicError};
use std::alloc::Global;
use std::process::Abort;

/// Columns, the first that is malformed along 8 rows, and the words for it.
static REFUSED: [(&[&[u64]], PeriodicError, &str); 4] = [
    (
        &[&[1, 2, 3]],
        PeriodicError::NotPowerOfTwo {
            column: 0,
            length: 3,
        },
        "periodic column 0 has length 3, which is not a power of two",
    ),
    (
        &[&[1; 16]],
        PeriodicError::DoesNotDivide {
            column: 0,
            length: 16,
            trace_height: 8,
        },
        "periodic column 0 has length 16, which does not divide the trace height 8",
    ),
    (
        &[&[]],
        PeriodicError::NotPowerOfTwo {
            column: 0,
            length: 0,
        },
        "periodic column 0 has length 0, which is not a power of two",
    ),
    (
        &[&[1, 3], &[1; 16], &[1, 2, 3]],
        PeriodicError::DoesNotDivide {
            column: 1,
            length: 16,
            trace_height: 8,
        },
        "periodic column 1 has length 16, which does not divide the trace height 8",
    ),
];

/// Whether along 8 rows each call refuses the columns for this reason, in these words.
fn are_refused(
    rt: &impl Abort,
    alloc: Global,
    columns: &[&[u64]],
    fault: PeriodicError,
    words: &str,
) -> bool {
    let table = columns_of(rt, alloc, columns);
    let text = format!(in alloc; "{fault}").expect(rt, "memory");
    let mut right = text.as_str() == words
        && PeriodicColumns::new(&table, 8).err() == Some(fault)
        && values_at(rt, alloc, columns, 3, BabyBear::from_u64(7)).err() == Some(fault);
    for way in &WAYS {
        right = right && table_by(rt, alloc, way, columns).err() == Some(fault);
    }
    right
}

#[test]
fn malformed_columns_are_named(rt: HostRuntime) {
    for (columns, fault, words) in &REFUSED {
        let right = are_refused(&rt, rt.alloc(), *columns, *fault, *words);
        assert!(rt; right, "{words}");
    }
}
