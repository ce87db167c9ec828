//! Elements of the extension by their coefficients, and whether opened values are such.

use p3_challenger::Sha256Challenger;
use p3_field::{BabyBear, BabyBear4, ExtensionField, Field};
use p3_mmcs::OpenedValues;

/// Coefficients of an element of the extension, that of one first.
pub(crate) type Coefficients = [u64; 4];

/// For each matrix of each commitment, and each of its points, the value of its one column.
pub(crate) type Values<'a> = &'a [&'a [&'a [Coefficients]]];

/// One value of one column, -3: that of `2 - X` at 5.
pub(crate) const MINUS_THREE: Values<'static> = &[&[&[[2_013_265_918, 0, 0, 0]]]];

/// The element with these coefficients.
pub(crate) fn element(coefficients: Coefficients) -> BabyBear4 {
    BabyBear4::from_coefficients(&[
        BabyBear::from_u64(coefficients[0]),
        BabyBear::from_u64(coefficients[1]),
        BabyBear::from_u64(coefficients[2]),
        BabyBear::from_u64(coefficients[3]),
    ])
}

/// Whether one column has these values at the points.
fn are_values_at(points: &[Vec<BabyBear4>], expected: &[Coefficients]) -> bool {
    for (columns, coefficients) in points.iter().zip(expected) {
        if columns.as_slice() != [element(*coefficients)].as_slice() {
            return false;
        }
    }
    points.len() == expected.len()
}

/// Whether the column of each matrix does.
fn are_values_of(matrices: &[Vec<Vec<BabyBear4>>], each: &[&[Coefficients]]) -> bool {
    for (points, expected) in matrices.iter().zip(each) {
        if !are_values_at(points, *expected) {
            return false;
        }
    }
    matrices.len() == each.len()
}

/// Whether those of each commitment do.
fn are_values(values: &OpenedValues<BabyBear4>, expected: Values<'_>) -> bool {
    for (matrices, each) in values.iter().zip(expected) {
        if !are_values_of(matrices, *each) {
            return false;
        }
    }
    values.len() == expected.len()
}

/// Whether they do, and both sides end in one state that isn't the first.
pub(crate) fn are_opened_alike(
    values: &OpenedValues<BabyBear4>,
    expected: Values<'_>,
    prover: &Sha256Challenger,
    verifier: &Sha256Challenger,
) -> bool {
    are_values(values, expected) && *prover == *verifier && *prover != Sha256Challenger::new()
}
