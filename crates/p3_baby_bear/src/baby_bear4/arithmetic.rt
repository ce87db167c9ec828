//! Arithmetic of polynomials modulo `X^4 - 11`.

ghost use Rattle.std.specs.Prelude.{◌≡◌, ◌≤◌, ◌*◌};
ghost use Rattle.algebra.specs.Field.{multiple, sub};
ghost use Rattle.p3_baby_bear.specs.BabyBear.{baby_bear, element};
ghost use Rattle.p3_baby_bear.specs.BabyBear4.{baby_bear4};

use super::BabyBear4;
use crate::baby_bear::BabyBear;
use p3_field_core::field::Field;
use p3_field_core::prime_field::PrimeField64;
use std::ops::{Add, Mul, Neg, Sub};

/// `11 * 2^32` modulo the order.
const HIGH_HALF: u64 = 939_524_073;

/// The product of the canonical numbers. Four of these fit 64 bits, so that a sum of four is
/// reduced once.
fn product(a: BabyBear, b: BabyBear) -> u64
    ensures value { multiple baby_bear result ≡ baby_bear.mul a b }
    ensures small { result ≤ 2013265920 * 2013265920 }
{
    a.as_canonical_u64() * b.as_canonical_u64()
}

/// The sum of four products, each of a value and the factor beside it, reduced once.
pub(super) fn four_products(
    values: (BabyBear, BabyBear, BabyBear, BabyBear),
    factors: (BabyBear, BabyBear, BabyBear, BabyBear),
) -> BabyBear
    ensures { result ≡ baby_bear.add (baby_bear.add (baby_bear.add
        (baby_bear.mul values.0 factors.0) (baby_bear.mul values.1 factors.1))
        (baby_bear.mul values.2 factors.2)) (baby_bear.mul values.3 factors.3) }
{
    BabyBear::from_u64(
        product(values.0, factors.0)
            + product(values.1, factors.1)
            + product(values.2, factors.2)
            + product(values.3, factors.3),
    )
}

/// 11 times a sum of up to three products, reduced so far that it is no greater than one product.
fn eleven_times(sum: u64) -> u64
    requires { sum ≤ 3 * (2013265920 * 2013265920) }
    ensures value { multiple baby_bear result
        ≡ baby_bear.mul (element 11) (multiple baby_bear sum) }
    ensures small { result ≤ 2013265920 * 2013265920 }
{
    (sum >> 32) * HIGH_HALF + (sum & 0xffff_ffff) * 11
}

impl Add for BabyBear4 {
    type Output = BabyBear4;

    ghost add_gives = { λ a b r. r ≡ baby_bear4.add a b };

    #[tactic(auto, unfolding(crate::specs::BabyBear4::baby_bear4))]
    fn add(self, rhs: BabyBear4) -> BabyBear4 {
        BabyBear4 {
            constant: self.constant + rhs.constant,
            linear: self.linear + rhs.linear,
            quadratic: self.quadratic + rhs.quadratic,
            cubic: self.cubic + rhs.cubic,
        }
    }
}

impl Sub for BabyBear4 {
    type Output = BabyBear4;

    ghost sub_gives = { λ a b r. r ≡ sub baby_bear4 a b };

    #[tactic(auto, unfolding(crate::specs::BabyBear4::baby_bear4))]
    fn sub(self, rhs: BabyBear4) -> BabyBear4 {
        BabyBear4 {
            constant: self.constant - rhs.constant,
            linear: self.linear - rhs.linear,
            quadratic: self.quadratic - rhs.quadratic,
            cubic: self.cubic - rhs.cubic,
        }
    }
}

impl Mul for BabyBear4 {
    type Output = BabyBear4;

    ghost mul_gives = { λ a b r. r ≡ baby_bear4.mul a b };

    #[tactic(auto, unfolding(crate::specs::BabyBear4::baby_bear4))]
    fn mul(self, rhs: BabyBear4) -> BabyBear4 {
        let (a, b) = (self, rhs);
        BabyBear4 {
            constant: BabyBear::from_u64(
                product(a.constant, b.constant)
                    + eleven_times(
                        product(a.linear, b.cubic)
                            + product(a.quadratic, b.quadratic)
                            + product(a.cubic, b.linear),
                    ),
            ),
            linear: BabyBear::from_u64(
                product(a.constant, b.linear)
                    + product(a.linear, b.constant)
                    + eleven_times(product(a.quadratic, b.cubic) + product(a.cubic, b.quadratic)),
            ),
            quadratic: BabyBear::from_u64(
                product(a.constant, b.quadratic)
                    + product(a.linear, b.linear)
                    + product(a.quadratic, b.constant)
                    + eleven_times(product(a.cubic, b.cubic)),
            ),
            cubic: BabyBear::from_u64(
                product(a.constant, b.cubic)
                    + product(a.linear, b.quadratic)
                    + product(a.quadratic, b.linear)
                    + product(a.cubic, b.constant),
            ),
        }
    }
}

impl Neg for BabyBear4 {
    type Output = BabyBear4;

    ghost neg_gives = { λ a r. r ≡ baby_bear4.neg a };

    #[tactic(auto, unfolding(crate::specs::BabyBear4::baby_bear4))]
    fn neg(self) -> BabyBear4 {
        BabyBear4 {
            constant: -self.constant,
            linear: -self.linear,
            quadratic: -self.quadratic,
            cubic: -self.cubic,
        }
    }
}
