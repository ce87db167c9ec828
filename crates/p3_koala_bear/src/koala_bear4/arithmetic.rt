//! Arithmetic of polynomials modulo `X^4 - 3`.

ghost use Rattle.std.specs.Prelude.{◌≡◌, ◌≤◌, ◌*◌};
ghost use Rattle.algebra.specs.Field.{multiple, sub};
ghost use Rattle.p3_koala_bear.specs.KoalaBear.{koala_bear, element};
ghost use Rattle.p3_koala_bear.specs.KoalaBear4.{koala_bear4};

use super::KoalaBear4;
use crate::koala_bear::KoalaBear;
use p3_field_core::field::Field;
use p3_field_core::prime_field::PrimeField64;
use std::ops::{Add, Mul, Neg, Sub};

/// `3 * 2^32` modulo the order.
const HIGH_HALF: u64 = 100_663_290;

/// The product of the canonical numbers. Four of these fit 64 bits, so that a sum of four is
/// reduced once.
fn product(a: KoalaBear, b: KoalaBear) -> u64
    ensures value { multiple koala_bear result ≡ koala_bear.mul a b }
    ensures small { result ≤ 2130706432 * 2130706432 }
{
    a.as_canonical_u64() * b.as_canonical_u64()
}

/// 3 times a sum of up to three products, reduced so far that it is no greater than one product.
fn three_times(sum: u64) -> u64
    requires { sum ≤ 3 * (2130706432 * 2130706432) }
    ensures value { multiple koala_bear result
        ≡ koala_bear.mul (element 3) (multiple koala_bear sum) }
    ensures small { result ≤ 2130706432 * 2130706432 }
{
    (sum >> 32) * HIGH_HALF + (sum & 0xffff_ffff) * 3
}

impl Add for KoalaBear4 {
    type Output = KoalaBear4;

    ghost add_gives = { λ a b r. r ≡ koala_bear4.add a b };

    #[tactic(auto, unfolding(crate::specs::KoalaBear4::koala_bear4))]
    fn add(self, rhs: KoalaBear4) -> KoalaBear4 {
        KoalaBear4 {
            constant: self.constant + rhs.constant,
            linear: self.linear + rhs.linear,
            quadratic: self.quadratic + rhs.quadratic,
            cubic: self.cubic + rhs.cubic,
        }
    }
}

impl Sub for KoalaBear4 {
    type Output = KoalaBear4;

    ghost sub_gives = { λ a b r. r ≡ sub koala_bear4 a b };

    #[tactic(auto, unfolding(crate::specs::KoalaBear4::koala_bear4))]
    fn sub(self, rhs: KoalaBear4) -> KoalaBear4 {
        KoalaBear4 {
            constant: self.constant - rhs.constant,
            linear: self.linear - rhs.linear,
            quadratic: self.quadratic - rhs.quadratic,
            cubic: self.cubic - rhs.cubic,
        }
    }
}

impl Mul for KoalaBear4 {
    type Output = KoalaBear4;

    ghost mul_gives = { λ a b r. r ≡ koala_bear4.mul a b };

    #[tactic(auto, unfolding(crate::specs::KoalaBear4::koala_bear4))]
    fn mul(self, rhs: KoalaBear4) -> KoalaBear4 {
        let (a, b) = (self, rhs);
        KoalaBear4 {
            constant: KoalaBear::from_u64(
                product(a.constant, b.constant)
                    + three_times(
                        product(a.linear, b.cubic)
                            + product(a.quadratic, b.quadratic)
                            + product(a.cubic, b.linear),
                    ),
            ),
            linear: KoalaBear::from_u64(
                product(a.constant, b.linear)
                    + product(a.linear, b.constant)
                    + three_times(product(a.quadratic, b.cubic) + product(a.cubic, b.quadratic)),
            ),
            quadratic: KoalaBear::from_u64(
                product(a.constant, b.quadratic)
                    + product(a.linear, b.linear)
                    + product(a.quadratic, b.constant)
                    + three_times(product(a.cubic, b.cubic)),
            ),
            cubic: KoalaBear::from_u64(
                product(a.constant, b.cubic)
                    + product(a.linear, b.quadratic)
                    + product(a.quadratic, b.linear)
                    + product(a.cubic, b.constant),
            ),
        }
    }
}

impl Neg for KoalaBear4 {
    type Output = KoalaBear4;

    ghost neg_gives = { λ a r. r ≡ koala_bear4.neg a };

    #[tactic(auto, unfolding(crate::specs::KoalaBear4::koala_bear4))]
    fn neg(self) -> KoalaBear4 {
        KoalaBear4 {
            constant: -self.constant,
            linear: -self.linear,
            quadratic: -self.quadratic,
            cubic: -self.cubic,
        }
    }
}
