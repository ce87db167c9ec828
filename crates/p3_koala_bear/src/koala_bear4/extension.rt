//! KoalaBear4 is an extension of KoalaBear, of dimension 4.

ghost use Rattle.std.specs.Prelude.{◌≡◌, ◌<◌, length, slice_index_or, slice_set};
ghost use Rattle.p3_koala_bear.specs.KoalaBear4.{koala_bear4, lift4, coefficients4};
ghost use Rattle.p3_koala_bear.specs.KoalaBear4.{of_coefficients4};
ghost use Rattle.p3_koala_bear.specs.KoalaBear4Laws.{lift4_homomorphism, lift4_constant};
ghost use Rattle.p3_koala_bear.specs.KoalaBear4Laws.{coefficients4_length, coefficients4_injective};
ghost use Rattle.p3_koala_bear.specs.KoalaBear4Laws.{of_coefficients4_law, coefficients4_basis};

use super::KoalaBear4;
use crate::koala_bear::constants::ZERO;
use crate::koala_bear::{KoalaBear, KoalaBearFactor};
use p3_field_core::extension::ExtensionField;
use p3_field_core::field::Field;

impl ExtensionField<KoalaBear> for KoalaBear4 {
    ghost DIMENSION = { 4 };

    const DIMENSION: usize = 4;

    ghost lift = { lift4 };

    ghost coefficients = { coefficients4 };

    ghost of_coefficients = { of_coefficients4 };

    fn from_base(base: KoalaBear) -> KoalaBear4 {
        KoalaBear4 {
            constant: base,
            linear: ZERO,
            quadratic: ZERO,
            cubic: ZERO,
        }
    }

    fn from_coefficients(values: &[KoalaBear]) -> KoalaBear4 {
        KoalaBear4 {
            constant: values[0],
            linear: values[1],
            quadratic: values[2],
            cubic: values[3],
        }
    }

    fn coefficient(self, index: usize) -> KoalaBear {
        match index {
            0 => self.constant,
            1 => self.linear,
            2 => self.quadratic,
            _ => self.cubic,
        }
    }

    fn with_coefficient(self, index: usize, value: KoalaBear) -> KoalaBear4 {
        let mut changed = self;
        match index {
            0 => changed.constant = value,
            1 => changed.linear = value,
            2 => changed.quadratic = value,
            _ => changed.cubic = value,
        }
        changed
    }

    fn scale(self, factor: KoalaBear) -> KoalaBear4 {
        KoalaBear4 {
            constant: self.constant * factor,
            linear: self.linear * factor,
            quadratic: self.quadratic * factor,
            cubic: self.cubic * factor,
        }
    }

    fn scale_prepared(self, factor: KoalaBearFactor) -> KoalaBear4 {
        KoalaBear4 {
            constant: self.constant.times(factor),
            linear: self.linear.times(factor),
            quadratic: self.quadratic.times(factor),
            cubic: self.cubic.times(factor),
        }
    }

    ghost lift_law = { lift4_homomorphism };

    ghost coefficient_of_lift = { lift4_constant };

    ghost dimension_law = { coefficients4_length };

    ghost coefficients_injective = { coefficients4_injective };

    ghost of_coefficients_law = { of_coefficients4_law };

    ghost basis_law = { coefficients4_basis };
}
