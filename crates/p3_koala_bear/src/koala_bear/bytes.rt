//! KoalaBear's elements as bytes.

ghost use Rattle.std.specs.Prelude.{◌≡◌};
ghost use Rattle.p3_koala_bear.specs.KoalaBear.{number_bytes};
ghost use Rattle.p3_koala_bear.specs.KoalaBearLaws.{bytes_length, bytes_injective};

use super::KoalaBear;
use p3_field_core::element_bytes::ElementBytes;

/// The canonical number in four bytes, little endian.
impl ElementBytes for KoalaBear {
    ghost LEN = { 4 };

    const LEN: usize = 4;

    ghost bytes = { number_bytes };

    fn byte(self, index: usize) -> u8 {
        self.value.to_le_bytes()[index]
    }

    fn write_bytes(self, out: &mut [u8]) {
        out.copy_from_slice(&self.value.to_le_bytes());
    }

    ghost bytes_length = { bytes_length };

    ghost bytes_injective = { bytes_injective };
}
