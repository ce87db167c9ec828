//! Worked values of periodic columns at points.

use crate::periodic::columns::columns_of;
use p3_dft::Radix2Dit;
use p3_field::{BabyBear, BabyBear4, ExtensionField, Field, TwoAdicMultiplicativeCoset};
use p3_periodic::{PeriodicError, PeriodicEvaluator, TwoAdicPeriodicEvaluator};
use std::alloc::Global;
use std::process::Abort;

/// The values at `point` of columns along a trace of `2^log_rows` rows.
pub(crate) fn values_at<EF: ExtensionField<BabyBear>>(
    rt: &impl Abort,
    alloc: Global,
    columns: &[&[u64]],
    log_rows: usize,
    point: EF,
) -> Result<Vec<EF>, PeriodicError> {
    let table = columns_of(rt, alloc, columns);
    let trace = TwoAdicMultiplicativeCoset::new(BabyBear::GENERATOR, log_rows);
    let trace = trace.expect(rt, "no such trace");
    TwoAdicPeriodicEvaluator::<Radix2Dit<BabyBear>>::eval_at_point(alloc, &table, &trace, point)
}

/// The numbers of a column, the logarithm of a trace's rows, a point, and the column's value there.
/// 1728404513 is the root of unity of order 4, at whose powers the rows stand.
static VALUES: [(&[&[u64]], usize, u64, u64); 6] = [
    (&[&[5, 5, 5, 5]], 2, 7, 5),
    (&[&[1, 2, 3, 4]], 2, 1, 1),
    (&[&[1, 2, 3, 4]], 2, 1728404513, 2),
    (&[&[1, 2, 3, 4]], 2, 2013265920, 3),
    (&[&[1, 2, 3, 4]], 2, 284861408, 4),
    // a shorter column is read at a power
    (&[&[1, 3]], 3, 2, 2013265907),
];

/// Whether the only column has at the point of this number the value of that number.
fn has_value<EF: ExtensionField<BabyBear>>(
    rt: &impl Abort,
    alloc: Global,
    columns: &[&[u64]],
    log_rows: usize,
    point: u64,
    wanted: u64,
) -> bool {
    let values = values_at(rt, alloc, columns, log_rows, EF::from_u64(point));
    let values = values.expect(rt, "the column is refused");
    values.len() == 1 && values.get(0).copied() == Some(EF::from_u64(wanted))
}

#[test]
fn worked_values(rt: HostRuntime) {
    let alloc = rt.alloc();
    for (columns, log_rows, point, wanted) in &VALUES {
        let right = has_value::<BabyBear>(&rt, alloc, *columns, *log_rows, *point, *wanted);
        assert!(rt; right, "{wanted} at {point}");
    }
    assert!(rt; has_value::<BabyBear4>(&rt, alloc, &[&[5, 5, 5, 5]], 2, 7, 5));
}
