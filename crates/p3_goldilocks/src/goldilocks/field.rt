//! Goldilocks is a prime field.

ghost use Rattle.std.specs.Prelude.{◌≡◌, ◌≢◌, ◌%◌, refl};
ghost use Rattle.algebra.specs.Field.{multiple};
ghost use Rattle.p3_goldilocks.specs.Goldilocks.{goldilocks, element};
ghost use Rattle.p3_goldilocks.specs.GoldilocksLaws.{goldilocks_laws, eq_same, zero_is, one_is};
ghost use Rattle.p3_goldilocks.specs.GoldilocksLaws.{two_is};
ghost use Rattle.p3_goldilocks.specs.GoldilocksLaws.{generator_is, canonical_multiple};
ghost use Rattle.p3_goldilocks.specs.GoldilocksLaws.{multiple_canonical, bits_at_least};
ghost use Rattle.p3_goldilocks.specs.GoldilocksLaws.{bits_at_most};

use super::Goldilocks;
use super::arithmetic::{from_number, reduced_once};
use super::inverse::inverse_of;
use p3_field_core::field::Field;
use p3_field_core::prime_field::PrimeField64;
use p3_field_core::sample_field::SampleField;

/// Half of what is one more than the order.
const HALF: u64 = 9_223_372_034_707_292_161;

impl Field for Goldilocks {
    type Prepared = Goldilocks;

    ghost ops = { goldilocks };

    ghost factor_of = { λ x. x };

    ghost ZERO = { element 0 };

    const ZERO: Goldilocks = Goldilocks { value: 0 };

    ghost ONE = { element 1 };

    const ONE: Goldilocks = Goldilocks { value: 1 };

    ghost TWO = { element 2 };

    const TWO: Goldilocks = Goldilocks { value: 2 };

    ghost GENERATOR = { element 7 };

    const GENERATOR: Goldilocks = Goldilocks { value: 7 };

    ghost BITS = { 64 };

    const BITS: usize = 64;

    fn prepare(self) -> Goldilocks {
        self
    }

    fn times(self, factor: Goldilocks) -> Goldilocks {
        self * factor
    }

    fn halve(self) -> Goldilocks {
        let half = self.value / 2;
        // half of an odd number and the order, of which each lacks a half
        from_number(if self.value % 2 == 0 {
            half
        } else {
            half + HALF
        })
    }

    fn from_u64(n: u64) -> Goldilocks {
        reduced_once(n)
    }

    fn inverse(self) -> Goldilocks {
        inverse_of(self)
    }

    ghost laws = { goldilocks_laws };

    ghost zero_law = { zero_is };

    ghost one_law = { one_is };

    ghost two_law = { two_is };

    ghost generator_law = { generator_is };

    ghost eq_law = { eq_same };

    ghost can_add_law = { λ _ _. tt };

    ghost add_law = { λ a b r h. h };

    ghost can_sub_law = { λ _ _. tt };

    ghost sub_law = { λ a b r h. h };

    ghost can_mul_law = { λ _ _. tt };

    ghost mul_law = { λ a b r h. h };

    ghost can_neg_law = { λ _. tt };

    ghost neg_law = { λ a r h. h };
}

impl PrimeField64 for Goldilocks {
    ghost ORDER_U64 = { 18446744069414584321 };

    const ORDER_U64: u64 = 18_446_744_069_414_584_321;

    ghost canonical = { λ x. x.value };

    fn as_canonical_u64(self) -> u64 {
        self.value
    }

    fn from_canonical(n: u64) -> Goldilocks {
        from_number(n)
    }

    ghost canonical_below = { λ x. x.canonical };

    ghost multiple_canonical = { multiple_canonical };

    ghost canonical_multiple = { canonical_multiple };

    ghost bits_at_least = { bits_at_least };

    ghost bits_at_most = { bits_at_most };
}

impl SampleField for Goldilocks {
    ghost from_word = { λ word. multiple goldilocks (word % 18446744069414584321) };

    ghost from_word_law = { λ _. refl };
}
