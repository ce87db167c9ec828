//! Elements of the extension, by their coefficients.

use p3_field::{BabyBear, BabyBear4, ExtensionField, Field};
use std::alloc::Global;
use std::process::Abort;

/// The coefficients of an element, that of one first.
pub(crate) type Coefficients = [u64; 4];

/// The element of these coefficients.
pub(crate) fn element(coefficients: Coefficients) -> BabyBear4 {
    let [constant, linear, quadratic, cubic] = coefficients;
    BabyBear4::from_coefficients(&[
        BabyBear::from_u64(constant),
        BabyBear::from_u64(linear),
        BabyBear::from_u64(quadratic),
        BabyBear::from_u64(cubic),
    ])
}

/// The elements of these coefficients.
pub(crate) fn elements(rt: &impl Abort, alloc: Global, all: &[Coefficients]) -> Vec<BabyBear4> {
    let mut row = Vec::new(alloc);
    for coefficients in all {
        row.push(element(*coefficients)).expect(rt, "memory");
    }
    row
}
