//! What is claimed of columns.

use crate::answers::{Domain, constant};
use p3_field::{BabyBear, BabyBear4, Field};
use p3_mmcs::{MatrixOpening, PointOpening};
use std::alloc::Global;
use std::process::Abort;

/// What is claimed of a matrix of so many columns that was extended from `2^log_size` points: this
/// value of each column at the point 2, or nothing.
pub(crate) fn matrix_claim(
    rt: &impl Abort,
    alloc: Global,
    log_size: usize,
    width: usize,
    value: Option<u64>,
) -> MatrixOpening<BabyBear4, Domain> {
    let domain = Domain::new(BabyBear::ONE, log_size).expect(rt, "a domain");
    let mut points = Vec::new(alloc);
    if let Some(value) = value {
        let point = PointOpening {
            point: constant(2),
            values: vec![in alloc; constant(value); width].expect(rt, "memory"),
        };
        points.push(point).expect(rt, "memory");
    }
    MatrixOpening { domain, points }
}
