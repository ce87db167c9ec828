//! Words, and the values asked of them.

use crate::rounds::{Domain, coset_of, has_coset, matrix};
use p3_dft::Radix2Dit;
use p3_field::{BabyBear, Field};
use p3_fri_extensions::evaluations_on_domain;
use p3_matrix::RowMajorMatrix;
use std::alloc::Global;
use std::process::Abort;

/// The values on the domain of the polynomials of `words`.
pub(crate) fn values_on(
    rt: &impl Abort,
    alloc: Global,
    log_blowup: usize,
    words: &RowMajorMatrix<BabyBear>,
    domain: Domain,
) -> RowMajorMatrix<BabyBear> {
    if !has_coset(words) {
        panic!(rt; "the words stand on no coset");
    }
    let dft = Radix2Dit::<BabyBear>::default();
    evaluations_on_domain(&dft, alloc, log_blowup, domain, words).expect(rt, "memory")
}

/// The value at `x` of the polynomial whose coefficients stand in a column, by Horner's rule.
fn value<F: Field>(coefficients: &RowMajorMatrix<F>, column: usize, x: F) -> F {
    let mut value = F::ZERO;
    for i in (0..coefficients.height()).rev() {
        value = value * x + coefficients.get(i, column).unwrap_or(F::ZERO);
    }
    value
}

/// The values at these points of the polynomials in the columns, row after row.
fn values_at(
    rt: &impl Abort,
    alloc: Global,
    coefficients: &RowMajorMatrix<BabyBear>,
    points: &[BabyBear],
) -> RowMajorMatrix<BabyBear> {
    let width = coefficients.width();
    let mut values = Vec::new(alloc);
    for point in points {
        for j in 0..width {
            values
                .push(value(coefficients, j, *point))
                .expect(rt, "memory");
        }
    }
    assert!(rt; values.len() % width == 0, "no whole rows");
    RowMajorMatrix::new(values, width)
}

/// Whether these are the values of the polynomials on the domain, in natural order.
fn are_values(
    values: &RowMajorMatrix<BabyBear>,
    coefficients: &RowMajorMatrix<BabyBear>,
    domain: Domain,
) -> bool {
    for i in 0..domain.size() {
        for j in 0..coefficients.width() {
            if values.get(i, j) != Some(value(coefficients, j, domain.element(i))) {
                return false;
            }
        }
    }
    values.height() == domain.size() && values.width() == coefficients.width()
}

/// The polynomials in columns below.
const WIDTH: usize = 3;

/// Whether the values on the domain, from words of `2^log_height` rows of the polynomials of these
/// coefficients, are those by Horner's rule.
pub(crate) fn agrees(
    rt: &impl Abort,
    alloc: Global,
    coefficients: &[u64],
    log_blowup: usize,
    log_height: usize,
    domain: Domain,
) -> bool {
    let coefficients = matrix(rt, alloc, coefficients, WIDTH);
    let coset = coset_of(rt, BabyBear::GENERATOR, log_height);
    let points = coset.bit_reversed_points(alloc).expect(rt, "memory");
    let words = values_at(rt, alloc, &coefficients, &points);
    let values = values_on(rt, alloc, log_blowup, &words, domain);
    are_values(&values, &coefficients, domain)
}
