//! What the SHA-256 challenger absorbs.

ghost use Rattle.std.specs.Prelude.{◌≡◌, ◌≤◌};
ghost use Rattle.p3_field.specs.BabyBear4.{coefficients4};
ghost use Rattle.p3_challenger_core.specs.Run.{observed_all};
ghost use Rattle.p3_challenger_sha256.specs.Sha256.{absorbed, element_observed};

use super::{HAVE_SHORT_NUMBERS, Sha256Challenger};
use crate::sha256_field::Sha256Field;
use p3_challenger_core::field_challenger::FieldChallenger;
use p3_challenger_core::observe::CanObserve;
use p3_field::{BabyBear, BabyBear4, PrimeField64};

/// An element of the field: the bytes of its canonical number, little endian, at once. These are
/// four where the order is at most `2^32`, and else eight.
impl<F: Sha256Field> CanObserve<F> for Sha256Challenger<F> {
    ghost observed = { element_observed F.ORDER_U64 F.canonical };

    fn observe(&mut self, value: F) {
        let number = value.as_canonical_u64();
        if F::ORDER_U64 <= HAVE_SHORT_NUMBERS {
            self.absorb(&(number as u32).to_le_bytes());
        } else {
            self.absorb(&number.to_le_bytes());
        }
    }
}

/// An element of BabyBear4: its coefficients, each as an element of BabyBear, that of one first.
impl CanObserve<BabyBear4> for Sha256Challenger {
    ghost observed = { λ c x. observed_all ⟦<Sha256Challenger as CanObserve<BabyBear>>⟧.observed c
        (coefficients4 x) };

    fn observe(&mut self, value: BabyBear4) {
        self.observe_algebra_element(value);
    }
}

/// A commitment: its 32 bytes at once.
impl<F> CanObserve<[u8; 32]> for Sha256Challenger<F> {
    ghost observed = { absorbed };

    fn observe(&mut self, value: [u8; 32]) {
        self.absorb(&value);
    }
}
