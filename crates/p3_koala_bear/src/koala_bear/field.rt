//! KoalaBear is a prime field.

ghost use Rattle.std.specs.Prelude.{◌≡◌, ◌≢◌, ◌%◌, refl};
ghost use Rattle.algebra.specs.Field.{multiple};
ghost use Rattle.p3_koala_bear.specs.KoalaBear.{koala_bear, element};
ghost use Rattle.p3_koala_bear.specs.KoalaBearLaws.{koala_bear_laws, eq_same, zero_is, one_is};
ghost use Rattle.p3_koala_bear.specs.KoalaBearLaws.{two_is};
ghost use Rattle.p3_koala_bear.specs.KoalaBearLaws.{generator_is, canonical_multiple};
ghost use Rattle.p3_koala_bear.specs.KoalaBearLaws.{multiple_canonical, bits_at_least};
ghost use Rattle.p3_koala_bear.specs.KoalaBearLaws.{bits_at_most};

use super::KoalaBear;
use super::arithmetic::{P, from_number};
use super::factor::KoalaBearFactor;
use super::inverse::inverse_of;
use p3_field_core::field::Field;
use p3_field_core::prime_field::PrimeField64;
use p3_field_core::sample_field::SampleField;

impl Field for KoalaBear {
    type Prepared = KoalaBearFactor;

    ghost ops = { koala_bear };

    ghost factor_of = { λ f. f.factor };

    ghost ZERO = { element 0 };

    const ZERO: KoalaBear = KoalaBear { value: 0 };

    ghost ONE = { element 1 };

    const ONE: KoalaBear = KoalaBear { value: 1 };

    ghost TWO = { element 2 };

    const TWO: KoalaBear = KoalaBear { value: 2 };

    ghost GENERATOR = { element 3 };

    const GENERATOR: KoalaBear = KoalaBear { value: 3 };

    ghost BITS = { 31 };

    const BITS: usize = 31;

    fn prepare(self) -> KoalaBearFactor {
        KoalaBearFactor::prepare(self)
    }

    fn times(self, factor: KoalaBearFactor) -> KoalaBear {
        factor.times(self)
    }

    fn halve(self) -> KoalaBear {
        let even = if self.value % 2 == 0 {
            self.value
        } else {
            self.value + P
        };
        from_number(even / 2)
    }

    fn from_u64(n: u64) -> KoalaBear {
        from_number((n % u64::from(P)) as u32)
    }

    fn inverse(self) -> KoalaBear {
        inverse_of(self)
    }

    ghost laws = { koala_bear_laws };

    ghost zero_law = { zero_is };

    ghost one_law = { one_is };

    ghost two_law = { two_is };

    ghost generator_law = { generator_is };

    ghost eq_law = { eq_same };

    ghost can_add_law = { λ _ _. tt };

    ghost add_law = { λ a b r h. h };

    ghost can_sub_law = { λ _ _. tt };

    ghost sub_law = { λ a b r h. h };

    ghost can_mul_law = { λ _ _. tt };

    ghost mul_law = { λ a b r h. h };

    ghost can_neg_law = { λ _. tt };

    ghost neg_law = { λ a r h. h };
}

impl PrimeField64 for KoalaBear {
    ghost ORDER_U64 = { 2130706433 };

    const ORDER_U64: u64 = 2_130_706_433;

    ghost canonical = { λ x. x.value };

    fn as_canonical_u64(self) -> u64 {
        u64::from(self.value)
    }

    fn from_canonical(n: u64) -> KoalaBear {
        from_number(n as u32)
    }

    ghost canonical_below = { λ x. x.canonical };

    ghost multiple_canonical = { multiple_canonical };

    ghost canonical_multiple = { canonical_multiple };

    ghost bits_at_least = { bits_at_least };

    ghost bits_at_most = { bits_at_most };
}

impl SampleField for KoalaBear {
    ghost from_word = { λ word. multiple koala_bear (word % 2130706433) };

    ghost from_word_law = { λ _. refl };
}
