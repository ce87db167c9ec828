//! What the SHA-256 challenger draws.

ghost use Rattle.std.specs.Prelude.{◌≡◌};
ghost use Rattle.p3_field.specs.BabyBear4.{of_coefficients4};
ghost use Rattle.p3_challenger_core.specs.Run.{drawn_element};
ghost use Rattle.p3_challenger_sha256.specs.Sha256.{element_sampled, bits_sampled};
ghost use Rattle.p3_challenger_sha256.specs.Sha256Laws.{max_small, bits_below};

use super::{HAVE_SHORT_NUMBERS, Sha256Challenger};
use crate::sha256_field::Sha256Field;
use p3_challenger_core::field_challenger::FieldChallenger;
use p3_challenger_core::sample::{CanSample, CanSampleBits};
use p3_field::{BabyBear, BabyBear4, PrimeField64};

/// An element of the field: the drawn number modulo the order, of eight bytes where the order is at
/// most `2^32`, and else of sixteen. So no element is much likelier than another.
impl<F: Sha256Field> CanSample<F> for Sha256Challenger<F> {
    ghost sampled = { element_sampled F.ORDER_U64 F.ops };

    fn sample(&mut self) -> F {
        let number = if F::ORDER_U64 <= HAVE_SHORT_NUMBERS {
            self.draw() % F::ORDER_U64
        } else {
            (self.draw_wide() % u128::from(F::ORDER_U64)) as u64
        };
        F::from_canonical(number)
    }
}

/// An element of BabyBear4: four elements of BabyBear as its coefficients, that of one first.
impl CanSample<BabyBear4> for Sha256Challenger {
    ghost sampled = { drawn_element ⟦<Sha256Challenger as CanSample<BabyBear>>⟧.sampled
        of_coefficients4 4 };

    fn sample(&mut self) -> BabyBear4 {
        self.sample_algebra_element()
    }
}

/// The lowest bits of the drawn number.
impl<F> CanSampleBits for Sha256Challenger<F> {
    ghost MAX_SAMPLE_BITS = { 63 };

    const MAX_SAMPLE_BITS: usize = 63;

    ghost sampled_bits = { bits_sampled };

    fn sample_bits(&mut self, bits: usize) -> usize {
        (self.draw() % (1u64 << bits as u32)) as usize
    }

    ghost max_law = { max_small };

    ghost width_law = { bits_below };
}

impl<F: Sha256Field> FieldChallenger<F> for Sha256Challenger<F> {}
