//! Values by number.

use p3_field::{BabyBear, BabyBear4, ExtensionField, Field};
use std::alloc::Global;
use std::process::Abort;

/// The element whose coefficient of one is this number.
pub(crate) fn element(number: u64) -> BabyBear4 {
    BabyBear4::from_coefficients(&[
        BabyBear::from_u64(number),
        BabyBear::ZERO,
        BabyBear::ZERO,
        BabyBear::ZERO,
    ])
}

/// As many elements, numbered on from `next`.
pub(crate) fn numbered(
    rt: &impl Abort,
    alloc: Global,
    next: &mut u64,
    count: usize,
) -> Vec<BabyBear4> {
    let mut values = Vec::new(alloc);
    for _ in 0..count {
        values.push(element(*next)).expect(rt, "memory");
        *next = (*next).wrapping_add(1);
    }
    values
}

/// Elements at each point of the matrices of commitments, as many as the counts say, numbered on
/// from `first`.
pub(crate) fn numbered_all(
    rt: &impl Abort,
    alloc: Global,
    counts: &[&[&[usize]]],
    first: u64,
) -> Vec<Vec<Vec<Vec<BabyBear4>>>> {
    let mut next = first;
    let mut rounds = Vec::new(alloc);
    for matrices in counts {
        let mut round = Vec::new(alloc);
        for points in *matrices {
            let mut matrix = Vec::new(alloc);
            for count in *points {
                matrix
                    .push(numbered(rt, alloc, &mut next, *count))
                    .expect(rt, "memory");
            }
            round.push(matrix).expect(rt, "memory");
        }
        rounds.push(round).expect(rt, "memory");
    }
    rounds
}

/// Whether these are the elements of these numbers.
pub(crate) fn are_numbered(values: &[BabyBear4], numbers: &[u64]) -> bool {
    values.len() == numbers.len()
        && values
            .iter()
            .zip(numbers)
            .all(|(value, number)| *value == element(*number))
}
