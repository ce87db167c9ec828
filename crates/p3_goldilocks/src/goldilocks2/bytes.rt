//! Goldilocks2's elements as bytes.

ghost use Rattle.std.specs.Prelude.{◌≡◌};
ghost use Rattle.p3_goldilocks.specs.Goldilocks2.{coefficient_bytes};
ghost use Rattle.p3_goldilocks.specs.Goldilocks2Laws.{coefficient_bytes_length};
ghost use Rattle.p3_goldilocks.specs.Goldilocks2Laws.{coefficient_bytes_injective};

use super::Goldilocks2;
use crate::goldilocks::Goldilocks;
use p3_field_core::element_bytes::ElementBytes;
use p3_field_core::extension::ExtensionField;

/// The bytes of both coefficients one after another, from the constant one.
impl ElementBytes for Goldilocks2 {
    ghost LEN = { 16 };

    const LEN: usize = 16;

    ghost bytes = { coefficient_bytes };

    fn byte(self, index: usize) -> u8 {
        let coefficient: Goldilocks = self.coefficient(index / 8);
        coefficient.byte(index % 8)
    }

    fn write_bytes(self, out: &mut [u8]) {
        let (constant, linear) = out.split_at_mut(8);
        self.constant.write_bytes(constant);
        self.linear.write_bytes(linear);
    }

    ghost bytes_length = { coefficient_bytes_length };

    ghost bytes_injective = { coefficient_bytes_injective };
}
