//! BabyBear4 is an extension of BabyBear, of dimension 4.

ghost use Rattle.std.specs.Prelude.{◌≡◌, ◌<◌, length, slice_index_or, slice_set};
ghost use Rattle.p3_baby_bear.specs.BabyBear4.{baby_bear4, lift4, coefficients4, of_coefficients4};
ghost use Rattle.p3_baby_bear.specs.BabyBear4Laws.{lift4_homomorphism, lift4_constant};
ghost use Rattle.p3_baby_bear.specs.BabyBear4Laws.{coefficients4_length, coefficients4_injective};
ghost use Rattle.p3_baby_bear.specs.BabyBear4Laws.{of_coefficients4_law, coefficients4_basis};

use super::BabyBear4;
use super::column_sums::add_rows;
use super::row_sums::dot;
use crate::baby_bear::constants::ZERO;
use crate::baby_bear::{BabyBear, BabyBearFactor};
use p3_field_core::extension::ExtensionField;
use p3_field_core::field::Field;

impl ExtensionField<BabyBear> for BabyBear4 {
    ghost DIMENSION = { 4 };

    const DIMENSION: usize = 4;

    ghost lift = { lift4 };

    ghost coefficients = { coefficients4 };

    ghost of_coefficients = { of_coefficients4 };

    fn from_base(base: BabyBear) -> BabyBear4 {
        BabyBear4 {
            constant: base,
            linear: ZERO,
            quadratic: ZERO,
            cubic: ZERO,
        }
    }

    fn from_coefficients(values: &[BabyBear]) -> BabyBear4 {
        BabyBear4 {
            constant: values[0],
            linear: values[1],
            quadratic: values[2],
            cubic: values[3],
        }
    }

    fn coefficient(self, index: usize) -> BabyBear {
        match index {
            0 => self.constant,
            1 => self.linear,
            2 => self.quadratic,
            _ => self.cubic,
        }
    }

    fn with_coefficient(self, index: usize, value: BabyBear) -> BabyBear4 {
        let mut changed = self;
        match index {
            0 => changed.constant = value,
            1 => changed.linear = value,
            2 => changed.quadratic = value,
            _ => changed.cubic = value,
        }
        changed
    }

    fn scale(self, factor: BabyBear) -> BabyBear4 {
        BabyBear4 {
            constant: self.constant * factor,
            linear: self.linear * factor,
            quadratic: self.quadratic * factor,
            cubic: self.cubic * factor,
        }
    }

    fn scale_prepared(self, factor: BabyBearFactor) -> BabyBear4 {
        BabyBear4 {
            constant: self.constant.times(factor),
            linear: self.linear.times(factor),
            quadratic: self.quadratic.times(factor),
            cubic: self.cubic.times(factor),
        }
    }

    /// By lanes.
    fn dot_row(values: &[BabyBear4], row: &[BabyBear]) -> BabyBear4 {
        dot(values, row)
    }

    /// By lanes.
    fn add_weighted_rows(sums: &mut [BabyBear4], rows: &[BabyBear], weights: &[BabyBear4]) {
        add_rows(sums, rows, weights);
    }

    ghost lift_law = { lift4_homomorphism };

    ghost coefficient_of_lift = { lift4_constant };

    ghost dimension_law = { coefficients4_length };

    ghost coefficients_injective = { coefficients4_injective };

    ghost of_coefficients_law = { of_coefficients4_law };

    ghost basis_law = { coefficients4_basis };
}
