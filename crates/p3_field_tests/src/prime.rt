//! What is asked of a prime field, whichever it is.

use crate::encoding::{has_bytes, writes_bytes};
use crate::extension::prepared_products_agree;
use crate::lanes::first_lane_is_kept;
use p3_field_core::{ElementBytes, PackableField, PrimeField64, SampleField, TwoAdicField};
use p3_test_fields::{
    field_values, first_wrong, first_wrong_inverse, first_wrong_product, first_wrong_root,
    first_wrong_word,
};

/// What is known of a prime field from outside.
pub(crate) struct PrimeCases {
    /// The canonical numbers of what the calls give at 5 and 7, and of the constants.
    pub values: &'static [(&'static str, u64)],
    /// Two factors, and their product.
    pub products: &'static [(u64, u64, u64)],
    /// Numbers, and those of their inverses.
    pub inverses: &'static [(u64, u64)],
    /// Words, and the canonical numbers of their elements.
    pub words: &'static [(u64, u64)],
    /// Logarithms of orders, and the roots of unity of these.
    pub roots: &'static [(usize, u64)],
    /// The two-adicity, and to which power the generator is the root of its order.
    pub two_adicity: (usize, u64),
    /// Factors that are prepared.
    pub factors: &'static [u64],
    /// The bytes of -3.
    pub bytes: &'static [u8],
}

/// Whether the numbers past the order wrap to these canonical ones.
fn wrap<F: PrimeField64>(words: &[(u64, u64)]) -> bool {
    let mut right = true;
    for (word, number) in words {
        right = right && *number < F::ORDER_U64 && F::from_u64(*word) == F::from_canonical(*number);
    }
    right
}

/// Whether the generator's power is the root of the greatest order, of this logarithm.
fn has_two_adicity<F: TwoAdicField>((log_order, exponent): (usize, u64)) -> bool {
    F::TWO_ADICITY == log_order
        && F::GENERATOR.exp_u64(exponent) == F::two_adic_generator(F::TWO_ADICITY)
        && !F::GENERATOR.is_zero()
}

/// Which of the field's calls gives something else than what is known, if one does.
pub(crate) fn wrong_call<F: SampleField + TwoAdicField + PackableField + ElementBytes>(
    cases: &PrimeCases,
) -> Option<&'static str> {
    let minus_three = -F::from_u64(3);
    if first_wrong_product::<F>(cases.products).is_some() {
        Some("a product")
    } else if first_wrong_inverse::<F>(cases.inverses).is_some() {
        Some("an inverse")
    } else if first_wrong_word::<F>(cases.words).is_some() || !wrap::<F>(cases.words) {
        Some("the element of a word")
    } else if first_wrong_root::<F>(cases.roots).is_some() {
        Some("a root of unity")
    } else if !has_two_adicity::<F>(cases.two_adicity) {
        Some("the two-adicity")
    } else if !prepared_products_agree::<F, F>(cases.factors) {
        Some("a product by a prepared factor")
    } else if !has_bytes(minus_three, cases.bytes) || !writes_bytes(minus_three, cases.bytes) {
        Some("the bytes")
    } else if !first_lane_is_kept(F::from_u64(5), F::from_u64(7)) {
        Some("a lane")
    } else {
        first_wrong(&field_values::<F>(), cases.values)
    }
}
