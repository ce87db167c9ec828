//! Selectors at a point, against values by the quotients of polynomials.

use crate::numbers::{extension, has_coefficients};
use p3_field::{BabyBear, BabyBear4, ExtensionField, PrimeField64, TwoAdicField};
use p3_uni_stark_identity::{is_on_domain, selectors_at_point};
use std::process::Abort;

/// For a subgroup of eight points, at the point `2 + 7X + X^2 + 8X^3`: the selectors of the first
/// row, of the last, of all but the last, and the inverse of the vanishing polynomial's value.
const SELECTORS: [[u64; 4]; 4] = [
    [500503419, 246264025, 353729052, 1058223796],
    [1168651659, 636222252, 796571352, 1487891771],
    [211723196, 7, 1, 8],
    [1740554519, 1789494393, 480915490, 368992788],
];

/// Whether the selectors of eight points at this point have these numbers.
fn have_numbers<F: TwoAdicField + PrimeField64, EF: ExtensionField<F>>(
    rt: &impl Abort,
    point: [u64; 4],
    [first, last, transition, inverse]: [[u64; 4]; 4],
) -> bool {
    let point = extension::<F, EF>(point);
    assert!(rt;
        3 <= F::TWO_ADICITY && !is_on_domain(3, point),
        "there are no selectors"
    );
    let selectors = selectors_at_point::<F, EF>(3, point);
    has_coefficients::<F, EF>(selectors.is_first_row, first)
        && has_coefficients::<F, EF>(selectors.is_last_row, last)
        && has_coefficients::<F, EF>(selectors.is_transition, transition)
        && has_coefficients::<F, EF>(selectors.inv_vanishing, inverse)
}

#[test]
fn selectors_at_a_point(rt: HostRuntime) {
    assert!(rt; have_numbers::<BabyBear, BabyBear4>(&rt, [2, 7, 1, 8], SELECTORS));
}

#[test]
fn no_selectors_on_the_domain(rt: HostRuntime) {
    let point = extension::<BabyBear, BabyBear4>([1, 0, 0, 0]);
    assert!(rt; is_on_domain(3, point));
}
