//! What is asked of an extension of a prime field, whichever it is.

use crate::encoding::{has_bytes, writes_bytes};
use crate::lanes::scaled_lane;
use p3_field_core::{
    ElementBytes, ExtensionField, Field, PackableExtension, PackableField, PrimeField64,
};
use p3_test_fields::{agree_throughout, first_wrong_basis};

/// The numbers of an element's coefficients.
pub(crate) type Numbers = &'static [u64];

/// What is known of an extension from outside.
pub(crate) struct ExtensionCases {
    /// Two factors, and their product.
    pub products: &'static [(&'static str, [Numbers; 3])],
    /// Elements, and their inverses.
    pub inverses: &'static [(&'static str, [Numbers; 2])],
    /// Factors of the base field that are prepared.
    pub factors: &'static [u64],
    /// An element, and seven times it.
    pub scaled: [Numbers; 2],
    pub generator: Numbers,
    pub bits: usize,
    /// An element, and its bytes.
    pub bytes: (Numbers, &'static [u8]),
}

/// The element of these coefficients.
pub(crate) fn polynomial<F: Field, E: ExtensionField<F>>(numbers: &[u64]) -> E {
    let mut element = E::ZERO;
    for (index, number) in numbers.iter().enumerate() {
        if index < E::DIMENSION {
            element = element.with_coefficient(index, F::from_u64(*number));
        }
    }
    element
}

/// Whether the element's coefficients have these canonical numbers.
pub(crate) fn has_coefficients<F: PrimeField64, E: ExtensionField<F>>(
    element: E,
    numbers: &[u64],
) -> bool {
    let mut right = numbers.len() == E::DIMENSION;
    for (index, number) in numbers.iter().enumerate() {
        right = right
            && index < E::DIMENSION
            && element.coefficient(index).as_canonical_u64() == *number;
    }
    right
}

/// The first of what an extension's calls gave, in order, whose coefficients are others.
pub(crate) fn first_wrong_value<F: PrimeField64, E: ExtensionField<F>>(
    found: &[E],
    cases: &[(&'static str, Numbers)],
) -> Option<&'static str> {
    for (element, (name, wanted)) in found.iter().zip(cases) {
        if !has_coefficients::<F, E>(*element, *wanted) {
            return Some(*name);
        }
    }
    None
}

/// The first wrong product.
fn first_wrong_product<F: PrimeField64, E: ExtensionField<F>>(
    cases: &[(&'static str, [Numbers; 3])],
) -> Option<&'static str> {
    for (name, [x, y, product]) in cases {
        let found = polynomial::<F, E>(*x) * polynomial::<F, E>(*y);
        if !has_coefficients::<F, E>(found, *product) {
            return Some(*name);
        }
    }
    None
}

/// Whether the inverses are right.
fn are_inverses<F: PrimeField64, E: ExtensionField<F>>(
    cases: &[(&'static str, [Numbers; 2])],
) -> bool {
    let mut right = true;
    for (_, [x, inverse]) in cases {
        let found = polynomial::<F, E>(*x).try_inverse().unwrap_or(E::ZERO);
        right = right && has_coefficients::<F, E>(found, *inverse);
    }
    right
}

/// Whether each of the first ten powers of the generator times its inverse is one, and zero has no
/// inverse.
fn powers_are_inverted<E: Field>() -> bool {
    let mut right = E::ZERO.is_zero() && E::ZERO.try_inverse().is_none();
    let mut power = E::GENERATOR;
    for _ in 0..10 {
        right = right && power * power.try_inverse().unwrap_or(E::ZERO) == E::ONE;
        power = power * E::GENERATOR;
    }
    right
}

/// Whether each element of the basis has the coefficient one in its place and zeros beside it, and
/// is that power of the root.
fn has_basis<F: Field, E: ExtensionField<F>>() -> bool {
    let mut right = first_wrong_basis::<F, E>().is_none();
    for index in 0..E::DIMENSION {
        let unit = E::ZERO.with_coefficient(index, F::ONE);
        right = right && E::ith_basis_element(index) == unit;
    }
    right
}

/// Whether products by each of these factors, prepared in the base field and in the extension, are
/// the products.
pub(crate) fn prepared_products_agree<F: Field, E: ExtensionField<F>>(factors: &[u64]) -> bool {
    let mut right = true;
    for n in factors {
        let factor = F::from_u64(*n);
        right = right
            && agree_throughout::<F, E>(factor)
            && agree_throughout::<E, E>(E::from_base(factor));
    }
    right
}

/// Which of the extension's calls gives something else than what is known, if one does.
pub(crate) fn wrong_call<F: PrimeField64 + PackableField, E: PackableExtension<F> + ElementBytes>(
    cases: &ExtensionCases,
) -> Option<&'static str> {
    let (numbers, bytes) = cases.bytes;
    let encoded = polynomial::<F, E>(numbers);
    let [x, seven_times] = cases.scaled;
    let scaled = scaled_lane::<F, E>(polynomial::<F, E>(x), F::from_u64(7));
    if E::BITS != cases.bits || !has_coefficients::<F, E>(E::GENERATOR, cases.generator) {
        Some("a constant")
    } else if !has_basis::<F, E>() {
        Some("the basis")
    } else if !powers_are_inverted::<E>() {
        Some("the inverse of a power")
    } else if !prepared_products_agree::<F, E>(cases.factors) {
        Some("a product by a prepared factor")
    } else if !has_bytes(encoded, bytes) || !writes_bytes(encoded, bytes) {
        Some("the bytes")
    } else if scaled != Some(polynomial::<F, E>(seven_times)) {
        Some("a lane")
    } else if !are_inverses::<F, E>(cases.inverses) {
        Some("an inverse")
    } else {
        first_wrong_product::<F, E>(cases.products)
    }
}

/// Whether a sum of values times a row, and a sum of columns of one entry that begins at one, have
/// these coefficients.
pub(crate) fn sums_are<F: PrimeField64, E: ExtensionField<F>>(
    values: &[E],
    row: &[F],
    sums: &mut [E],
    dot: &[u64],
    sum: &[u64],
) -> bool {
    if sums.len() != 1 || row.len() != values.len() {
        return false;
    }
    E::add_weighted_rows(sums, row, values);
    has_coefficients::<F, E>(E::dot_row(values, row), dot) && has_coefficients::<F, E>(sums[0], sum)
}
