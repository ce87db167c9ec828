//! Goldilocks's elements as bytes.

ghost use Rattle.std.specs.Prelude.{◌≡◌};
ghost use Rattle.p3_goldilocks.specs.Goldilocks.{number_bytes};
ghost use Rattle.p3_goldilocks.specs.GoldilocksLaws.{bytes_length, bytes_injective};

use super::Goldilocks;
use p3_field_core::element_bytes::ElementBytes;

/// The canonical number in eight bytes, little endian.
impl ElementBytes for Goldilocks {
    ghost LEN = { 8 };

    const LEN: usize = 8;

    ghost bytes = { number_bytes };

    fn byte(self, index: usize) -> u8 {
        self.value.to_le_bytes()[index]
    }

    fn write_bytes(self, out: &mut [u8]) {
        out.copy_from_slice(&self.value.to_le_bytes());
    }

    ghost bytes_length = { bytes_length };

    ghost bytes_injective = { bytes_injective };
}
