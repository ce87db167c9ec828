//! BabyBear is a prime field.

ghost use Rattle.std.specs.Prelude.{◌≡◌, ◌≢◌, ◌%◌, refl};
ghost use Rattle.algebra.specs.Field.{multiple};
ghost use Rattle.p3_baby_bear.specs.BabyBear.{baby_bear, element};
ghost use Rattle.p3_baby_bear.specs.BabyBearLaws.{baby_bear_laws, eq_same, zero_is, one_is, two_is};
ghost use Rattle.p3_baby_bear.specs.BabyBearLaws.{generator_is, canonical_multiple};
ghost use Rattle.p3_baby_bear.specs.BabyBearLaws.{multiple_canonical, bits_at_least, bits_at_most};

use super::BabyBear;
use super::arithmetic::{P, from_number};
use super::factor::BabyBearFactor;
use super::inverse::inverse_of;
use p3_field_core::field::Field;
use p3_field_core::prime_field::PrimeField64;
use p3_field_core::sample_field::SampleField;

impl Field for BabyBear {
    type Prepared = BabyBearFactor;

    ghost ops = { baby_bear };

    ghost factor_of = { λ f. f.factor };

    ghost ZERO = { element 0 };

    const ZERO: BabyBear = BabyBear { value: 0 };

    ghost ONE = { element 1 };

    const ONE: BabyBear = BabyBear { value: 1 };

    ghost TWO = { element 2 };

    const TWO: BabyBear = BabyBear { value: 2 };

    ghost GENERATOR = { element 31 };

    const GENERATOR: BabyBear = BabyBear { value: 31 };

    ghost BITS = { 31 };

    const BITS: usize = 31;

    fn prepare(self) -> BabyBearFactor {
        BabyBearFactor::prepare(self)
    }

    fn times(self, factor: BabyBearFactor) -> BabyBear {
        factor.times(self)
    }

    fn halve(self) -> BabyBear {
        let even = if self.value % 2 == 0 {
            self.value
        } else {
            self.value + P
        };
        from_number(even / 2)
    }

    fn from_u64(n: u64) -> BabyBear {
        from_number((n % u64::from(P)) as u32)
    }

    fn inverse(self) -> BabyBear {
        inverse_of(self)
    }

    ghost laws = { baby_bear_laws };

    ghost zero_law = { zero_is };

    ghost one_law = { one_is };

    ghost two_law = { two_is };

    ghost generator_law = { generator_is };

    ghost eq_law = { eq_same };

    ghost can_add_law = { λ _ _. tt };

    ghost add_law = { λ a b r h. h };

    ghost can_sub_law = { λ _ _. tt };

    ghost sub_law = { λ a b r h. h };

    ghost can_mul_law = { λ _ _. tt };

    ghost mul_law = { λ a b r h. h };

    ghost can_neg_law = { λ _. tt };

    ghost neg_law = { λ a r h. h };
}

impl PrimeField64 for BabyBear {
    ghost ORDER_U64 = { 2013265921 };

    const ORDER_U64: u64 = 2_013_265_921;

    ghost canonical = { λ x. x.value };

    fn as_canonical_u64(self) -> u64 {
        u64::from(self.value)
    }

    fn from_canonical(n: u64) -> BabyBear {
        from_number(n as u32)
    }

    ghost canonical_below = { λ x. x.canonical };

    ghost multiple_canonical = { multiple_canonical };

    ghost canonical_multiple = { canonical_multiple };

    ghost bits_at_least = { bits_at_least };

    ghost bits_at_most = { bits_at_most };
}

impl SampleField for BabyBear {
    ghost from_word = { λ word. multiple baby_bear (word % 2013265921) };

    ghost from_word_law = { λ _. refl };
}
