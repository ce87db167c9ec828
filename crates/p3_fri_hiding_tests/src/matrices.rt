//! Matrices of small numbers, the domains beside them, and points.

ghost use Rattle.std.specs.Prelude.{◌≡◌, ◌≤◌, All};
ghost use Rattle.p3_fri_hiding_tests.specs.Fits.{Fits};

use crate::lists::push;
use crate::scheme::{Domain, Evaluation};
use p3_field::{BabyBear, BabyBear4, ExtensionField, Field, TwoAdicMultiplicativeCoset};
use p3_matrix::RowMajorMatrix;
use std::alloc::Global;
use std::process::Abort;

/// Rows of this width of the numbers, on the coset of this shift.
pub(crate) struct Entries {
    pub shift: u64,
    pub width: usize,
    pub numbers: &'static [u64],
}

/// The first 32 digits of the circle's constant.
pub(crate) const PI: [u64; 32] = [
    3, 1, 4, 1, 5, 9, 2, 6, 5, 3, 5, 8, 9, 7, 9, 3, 2, 3, 8, 4, 6, 2, 6, 4, 3, 3, 8, 3, 2, 7, 9, 5,
];

/// The first 16 of them.
pub(crate) const SHORT_PI: [u64; 16] = [3, 1, 4, 1, 5, 9, 2, 6, 5, 3, 5, 8, 9, 7, 9, 3];

/// The first 32 digits of the base of natural logarithms.
pub(crate) const E: [u64; 32] = [
    2, 7, 1, 8, 2, 8, 1, 8, 2, 8, 4, 5, 9, 0, 4, 5, 2, 3, 5, 3, 6, 0, 2, 8, 7, 4, 7, 1, 3, 5, 2, 6,
];

/// The last 16 of them.
pub(crate) const LATE_E: [u64; 16] = [2, 3, 5, 3, 6, 0, 2, 8, 7, 4, 7, 1, 3, 5, 2, 6];

/// The first 16 of them.
pub(crate) const SHORT_E: [u64; 16] = [2, 7, 1, 8, 2, 8, 1, 8, 2, 8, 4, 5, 9, 0, 4, 5];

/// Columns of them that functions read, since a constant is written out in each.
pub(crate) static SHORT_PI_COLUMN: Entries = Entries {
    shift: 1,
    width: 1,
    numbers: &SHORT_PI,
};

pub(crate) static E_COLUMN: Entries = Entries {
    shift: 1,
    width: 1,
    numbers: &E,
};

/// The coset of this shift and of `2^log_size` points, which are few.
pub(crate) fn coset(rt: &impl Abort, shift: u64, log_size: usize) -> Domain
    ensures size { result.log_size ≡ log_size }
    ensures few { result.log_size ≤ 8 }
{
    if log_size > 8 {
        rt.panic("too large a domain");
    }
    TwoAdicMultiplicativeCoset::new(BabyBear::from_u64(shift), log_size).expect(rt, "not a domain")
}

/// Such cosets by their shifts and the logarithms of their sizes.
pub(crate) fn cosets(rt: &impl Abort, alloc: Global, each: &[(u64, usize)]) -> Vec<Domain>
    ensures { All (λ d. d.log_size ≤ 8) result.items }
{
    let mut domains = Vec::new(alloc);
    for one in each {
        push(rt, &mut domains, coset(rt, one.0, one.1));
    }
    domains
}

/// The matrix of these entries, beside the coset of so many times as many points as it has rows.
pub(crate) fn evaluation(
    rt: &impl Abort,
    alloc: Global,
    entries: &Entries,
    factor: usize,
) -> Evaluation
    ensures { Fits factor result.0.log_size result.1 }
{
    let mut values = Vec::new(alloc);
    for number in entries.numbers {
        push(rt, &mut values, BabyBear::from_u64(*number));
    }
    if entries.width == 0 || values.len() % entries.width != 0 {
        rt.panic("the numbers aren't whole rows");
    }
    let matrix = RowMajorMatrix::new(values, entries.width);
    let height = matrix.height();
    if height > 256 || factor > 2 {
        rt.panic("too high a matrix");
    }
    let num_points = factor * height;
    let log_size = num_points.trailing_zeros() as usize;
    let domain = coset(rt, entries.shift, log_size);
    if log_size < 2 || domain.size() != num_points {
        rt.panic("not on its domain");
    }
    (domain, matrix)
}

/// The same of each.
pub(crate) fn evaluations(
    rt: &impl Abort,
    alloc: Global,
    each: &[Entries],
    factor: usize,
) -> Vec<Evaluation>
    ensures { All (λ e. Fits factor e.0.log_size e.1) result.items }
{
    let mut all = Vec::new(alloc);
    for entries in each {
        push(rt, &mut all, evaluation(rt, alloc, entries, factor));
    }
    all
}

/// Coefficients of the points `5 + X^2` and `X`, which aren't elements of the base field, and so
/// lie outside of each coset.
pub(crate) const POINTS: [[u64; 4]; 2] = [POINT, OTHER_POINT];

pub(crate) const POINT: [u64; 4] = [5, 0, 1, 0];

pub(crate) const OTHER_POINT: [u64; 4] = [0, 1, 0, 0];

/// The element with these coefficients, that of one first.
pub(crate) fn element(coefficients: [u64; 4]) -> BabyBear4 {
    let [constant, linear, quadratic, cubic] = coefficients;
    BabyBear4::from_coefficients(&[
        BabyBear::from_u64(constant),
        BabyBear::from_u64(linear),
        BabyBear::from_u64(quadratic),
        BabyBear::from_u64(cubic),
    ])
}
