//! Elements from numbers, and domains.

use p3_field::{
    BabyBear, BabyBear4, ExtensionField, Field, PrimeField64, TwoAdicMultiplicativeCoset,
};
use std::process::Abort;

/// A domain of BabyBear.
pub(crate) type Domain = TwoAdicMultiplicativeCoset<BabyBear>;

/// The domain of this shift of `2^log_size` points.
pub(crate) fn domain(rt: &impl Abort, shift: u64, log_size: usize) -> Domain {
    let shift = BabyBear::from_u64(shift);
    TwoAdicMultiplicativeCoset::new(shift, log_size).expect(rt, "no such domain")
}

/// The element of the extension with these coefficients.
pub(crate) fn extension([constant, linear, quadratic, cubic]: [u64; 4]) -> BabyBear4 {
    BabyBear4::from_coefficients(&[
        BabyBear::from_u64(constant),
        BabyBear::from_u64(linear),
        BabyBear::from_u64(quadratic),
        BabyBear::from_u64(cubic),
    ])
}

/// The canonical numbers of an element's coefficients.
pub(crate) fn numbers(element: BabyBear4) -> [u64; 4] {
    let mut numbers = [0; 4];
    for index in 0..4 {
        let coefficient: BabyBear = element.coefficient(index);
        numbers[index] = coefficient.as_canonical_u64();
    }
    numbers
}
