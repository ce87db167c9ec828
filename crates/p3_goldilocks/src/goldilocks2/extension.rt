//! Goldilocks2 is an extension of Goldilocks, of dimension 2.

ghost use Rattle.std.specs.Prelude.{◌≡◌, ◌<◌, length, slice_index_or, slice_set};
ghost use Rattle.p3_goldilocks.specs.Goldilocks2.{goldilocks2, lift2, coefficients2};
ghost use Rattle.p3_goldilocks.specs.Goldilocks2.{of_coefficients2};
ghost use Rattle.p3_goldilocks.specs.Goldilocks2Laws.{lift2_homomorphism, lift2_constant};
ghost use Rattle.p3_goldilocks.specs.Goldilocks2Laws.{coefficients2_length};
ghost use Rattle.p3_goldilocks.specs.Goldilocks2Laws.{coefficients2_injective};
ghost use Rattle.p3_goldilocks.specs.Goldilocks2Laws.{of_coefficients2_law, coefficients2_basis};

use super::Goldilocks2;
use crate::goldilocks::Goldilocks;
use crate::goldilocks::constants::ZERO;
use p3_field_core::extension::ExtensionField;

impl ExtensionField<Goldilocks> for Goldilocks2 {
    ghost DIMENSION = { 2 };

    const DIMENSION: usize = 2;

    ghost lift = { lift2 };

    ghost coefficients = { coefficients2 };

    ghost of_coefficients = { of_coefficients2 };

    fn from_base(base: Goldilocks) -> Goldilocks2 {
        Goldilocks2 {
            constant: base,
            linear: ZERO,
        }
    }

    fn from_coefficients(values: &[Goldilocks]) -> Goldilocks2 {
        Goldilocks2 {
            constant: values[0],
            linear: values[1],
        }
    }

    fn coefficient(self, index: usize) -> Goldilocks {
        match index {
            0 => self.constant,
            _ => self.linear,
        }
    }

    fn with_coefficient(self, index: usize, value: Goldilocks) -> Goldilocks2 {
        let mut changed = self;
        match index {
            0 => changed.constant = value,
            _ => changed.linear = value,
        }
        changed
    }

    fn scale(self, factor: Goldilocks) -> Goldilocks2 {
        Goldilocks2 {
            constant: self.constant * factor,
            linear: self.linear * factor,
        }
    }

    fn scale_prepared(self, factor: Goldilocks) -> Goldilocks2 {
        self.scale(factor)
    }

    ghost lift_law = { lift2_homomorphism };

    ghost coefficient_of_lift = { lift2_constant };

    ghost dimension_law = { coefficients2_length };

    ghost coefficients_injective = { coefficients2_injective };

    ghost of_coefficients_law = { of_coefficients2_law };

    ghost basis_law = { coefficients2_basis };
}
