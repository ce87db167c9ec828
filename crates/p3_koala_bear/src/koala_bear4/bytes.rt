//! KoalaBear4's elements as bytes.

ghost use Rattle.std.specs.Prelude.{◌≡◌};
ghost use Rattle.p3_koala_bear.specs.KoalaBear4.{coefficient_bytes};
ghost use Rattle.p3_koala_bear.specs.KoalaBear4Laws.{coefficient_bytes_length};
ghost use Rattle.p3_koala_bear.specs.KoalaBear4Laws.{coefficient_bytes_injective};

use super::KoalaBear4;
use crate::koala_bear::KoalaBear;
use p3_field_core::element_bytes::ElementBytes;
use p3_field_core::extension::ExtensionField;

/// The bytes of the four coefficients one after another, from the constant one.
impl ElementBytes for KoalaBear4 {
    ghost LEN = { 16 };

    const LEN: usize = 16;

    ghost bytes = { coefficient_bytes };

    fn byte(self, index: usize) -> u8 {
        let coefficient: KoalaBear = self.coefficient(index / 4);
        coefficient.byte(index % 4)
    }

    fn write_bytes(self, out: &mut [u8]) {
        let (constant, others) = out.split_at_mut(4);
        let (linear, others) = others.split_at_mut(4);
        let (quadratic, cubic) = others.split_at_mut(4);
        self.constant.write_bytes(constant);
        self.linear.write_bytes(linear);
        self.quadratic.write_bytes(quadratic);
        self.cubic.write_bytes(cubic);
    }

    ghost bytes_length = { coefficient_bytes_length };

    ghost bytes_injective = { coefficient_bytes_injective };
}
