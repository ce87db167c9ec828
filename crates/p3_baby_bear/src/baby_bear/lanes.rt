//! Eight elements of BabyBear in one value.

ghost use Rattle.std.specs.Prelude.{◌≡◌, ◌<◌, ℕ, [], ◌∷◌, slice_index_or};
ghost use Rattle.std.proofs.Common.{lit<};
ghost use Rattle.algebra.specs.Field.{sub};
ghost use Rattle.p3_baby_bear.specs.BabyBear.{baby_bear};
ghost use Rattle.p3_baby_bear.specs.Lanes.{lane_of};

use super::BabyBear;
use super::arithmetic::from_number;
use p3_field_core::packing::{PackableField, PackedField};
use p3_field_core::prime_field::PrimeField64;
use p3_lanes::{differences, opposites, products, reduced, sums};
use std::ops::{Add, Mul, Neg, Sub};
use std::simd::prelude::*;

/// Eight elements, each kept as its canonical number in a lane of 64 bits.
#[derive(Clone, Copy)]
pub struct BabyBear8Lanes {
    pub(crate) numbers: u64x8,
    ghost canonical: { (l : ℕ) → slice_index_or numbers l 0 < 2013265921 },
}

/// Eight elements, one to a lane.
pub(crate) fn lanes_of(
    first: (BabyBear, BabyBear, BabyBear, BabyBear),
    others: (BabyBear, BabyBear, BabyBear, BabyBear),
) -> BabyBear8Lanes
    ensures { (l : ℕ) → l < 8 → lane_of result.numbers l ≡ slice_index_or (first.0 ∷ first.1
        ∷ first.2 ∷ first.3 ∷ others.0 ∷ others.1 ∷ others.2 ∷ others.3 ∷ []) l baby_bear.zero }
{
    BabyBear8Lanes {
        numbers: u64x8::from_array([
            first.0.value as u64,
            first.1.value as u64,
            first.2.value as u64,
            first.3.value as u64,
            others.0.value as u64,
            others.1.value as u64,
            others.2.value as u64,
            others.3.value as u64,
        ]),
    }
}

impl Add for BabyBear8Lanes {
    type Output = BabyBear8Lanes;

    ghost add_gives = { λ a b r. (l : ℕ) → l < 8 →
        lane_of r.numbers l ≡ baby_bear.add (lane_of a.numbers l) (lane_of b.numbers l) };

    fn add(self, rhs: BabyBear8Lanes) -> BabyBear8Lanes {
        BabyBear8Lanes {
            numbers: sums(self.numbers, rhs.numbers),
        }
    }
}

impl Sub for BabyBear8Lanes {
    type Output = BabyBear8Lanes;

    ghost sub_gives = { λ a b r. (l : ℕ) → l < 8 →
        lane_of r.numbers l ≡ sub baby_bear (lane_of a.numbers l) (lane_of b.numbers l) };

    fn sub(self, rhs: BabyBear8Lanes) -> BabyBear8Lanes {
        BabyBear8Lanes {
            numbers: differences(self.numbers, rhs.numbers),
        }
    }
}

impl Mul for BabyBear8Lanes {
    type Output = BabyBear8Lanes;

    ghost mul_gives = { λ a b r. (l : ℕ) → l < 8 →
        lane_of r.numbers l ≡ baby_bear.mul (lane_of a.numbers l) (lane_of b.numbers l) };

    fn mul(self, rhs: BabyBear8Lanes) -> BabyBear8Lanes {
        BabyBear8Lanes {
            numbers: reduced(products(self.numbers, rhs.numbers)),
        }
    }
}

impl Neg for BabyBear8Lanes {
    type Output = BabyBear8Lanes;

    ghost neg_gives = { λ a r. (l : ℕ) → l < 8 →
        lane_of r.numbers l ≡ baby_bear.neg (lane_of a.numbers l) };

    fn neg(self) -> BabyBear8Lanes {
        BabyBear8Lanes {
            numbers: opposites(self.numbers),
        }
    }
}

impl PackedField<BabyBear> for BabyBear8Lanes {
    ghost WIDTH = { 8 };

    const WIDTH: usize = 8;

    ghost lane = { λ x l. lane_of x.numbers l };

    fn broadcast(value: BabyBear) -> BabyBear8Lanes {
        BabyBear8Lanes {
            numbers: u64x8::splat(value.as_canonical_u64()),
        }
    }

    fn with_lane(self, index: usize, value: BabyBear) -> BabyBear8Lanes {
        let mut numbers = self.numbers.to_array();
        numbers[index] = value.as_canonical_u64();
        BabyBear8Lanes {
            numbers: u64x8::from_array(numbers),
        }
    }

    fn lane(self, index: usize) -> BabyBear {
        let numbers = self.numbers.to_array();
        from_number(numbers[index] as u32)
    }

    ghost width_law = { lit< tt };

    ghost can_add_law = { λ _ _. tt };

    ghost add_law = { λ a b r h. h };

    ghost can_sub_law = { λ _ _. tt };

    ghost sub_law = { λ a b r h. h };

    ghost can_mul_law = { λ _ _. tt };

    ghost mul_law = { λ a b r h. h };

    ghost can_neg_law = { λ _. tt };

    ghost neg_law = { λ a r h. h };
}

/// An element by itself is a packing too, of one lane.
impl PackedField<BabyBear> for BabyBear {
    ghost WIDTH = { 1 };

    const WIDTH: usize = 1;

    ghost lane = { λ x _. x };

    fn broadcast(value: BabyBear) -> BabyBear {
        value
    }

    fn with_lane(self, index: usize, value: BabyBear) -> BabyBear {
        value
    }

    fn lane(self, index: usize) -> BabyBear {
        self
    }

    ghost width_law = { lit< tt };

    ghost can_add_law = { λ _ _. tt };

    ghost add_law = { λ a b r h _ _. h };

    ghost can_sub_law = { λ _ _. tt };

    ghost sub_law = { λ a b r h _ _. h };

    ghost can_mul_law = { λ _ _. tt };

    ghost mul_law = { λ a b r h _ _. h };

    ghost can_neg_law = { λ _. tt };

    ghost neg_law = { λ a r h _ _. h };
}

impl PackableField for BabyBear {
    type Packing = BabyBear8Lanes;
}
