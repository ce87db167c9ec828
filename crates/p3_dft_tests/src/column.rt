//! A column of numbers.

use p3_field::{BabyBear, Field};
use std::alloc::Global;
use std::process::Abort;

/// A column of these numbers.
pub(crate) fn column_of(rt: &impl Abort, alloc: Global, numbers: &[u64]) -> Vec<BabyBear> {
    let mut column = Vec::new(alloc);
    for number in numbers {
        column
            .push(BabyBear::from_u64(*number))
            .expect(rt, "memory");
    }
    column
}
