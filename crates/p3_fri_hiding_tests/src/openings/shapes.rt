//! How many values are opened, and the first ones of them.

use p3_field::{BabyBear, BabyBear4, ExtensionField, Field};
use p3_mmcs::OpenedValues;

/// Of a commitment: how many matrices it has, how many points each, and how many values each of
/// these.
pub(crate) type Counts = [usize; 3];

/// What is wanted of a first value: it is added so many times to those before it, back to where
/// their sum was wanted last, and the sum may be wanted now.
pub(crate) struct First {
    pub factor: u64,
    pub sum: Option<u64>,
}

/// A value that may be any.
pub(crate) const ANY: First = First {
    factor: 0,
    sum: None,
};

/// Whether the commitments have these counts, and the first values of each matrix at each point are
/// those that are wanted, of as many as are.
pub(crate) fn are_opened_so(
    values: &OpenedValues<BabyBear4>,
    counts: &[Counts],
    firsts: &[First],
) -> bool {
    let mut firsts = firsts.iter();
    let mut are_so = values.len() == counts.len();
    let mut sum = BabyBear4::ZERO;
    for index in 0..values.len() {
        if index >= counts.len() {
            return false;
        }
        let [num_matrices, num_points, num_values] = counts[index];
        let matrices = &values[index];
        are_so &= matrices.len() == num_matrices;
        for points in matrices {
            are_so &= points.len() == num_points;
            for values in points {
                are_so &= values.len() == num_values;
                if let (Some(first), Some(wanted)) = (values.first(), firsts.next()) {
                    sum = sum + first.scale(BabyBear::from_u64(wanted.factor));
                    if let Some(number) = wanted.sum {
                        are_so &= sum == BabyBear4::from_base(BabyBear::from_u64(number));
                        sum = BabyBear4::ZERO;
                    }
                }
            }
        }
    }
    are_so & firsts.next().is_none()
}
