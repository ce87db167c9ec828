//! Arithmetic of polynomials modulo `X^4 - 11`, lane by lane.

ghost use Rattle.std.specs.Prelude.{◌≡◌, ◌<◌, ◌≤◌, ◌+◌, ℕ, slice_index_or};
ghost use Rattle.std.specs.Simd.Lanes.{Each1};
ghost use Rattle.algebra.specs.Field.{multiple, sub};
ghost use Rattle.p3_baby_bear.specs.BabyBear.{baby_bear, element};
ghost use Rattle.p3_baby_bear.specs.BabyBear4.{baby_bear4};
ghost use Rattle.p3_baby_bear.specs.Lanes.{lane_of};
ghost use Rattle.p3_baby_bear.specs.Lanes4.{lane4_of};

use super::BabyBear4x8Lanes;
use crate::baby_bear::BabyBear8Lanes;
use p3_lanes::{eleven_times, products, reduced_sum};
use std::ops::{Add, Mul, Neg, Sub};
use std::simd::prelude::*;

/// The products of the canonical numbers. Four of these fit 64 bits, so that a sum of four is
/// reduced once.
pub(crate) fn product(a: BabyBear8Lanes, b: BabyBear8Lanes) -> u64x8
    ensures value { (l : ℕ) → l < 8 → multiple baby_bear (slice_index_or result l 0)
        ≡ baby_bear.mul (lane_of a.numbers l) (lane_of b.numbers l) }
    ensures small { Each1 (λ n. n ≤ 4053239664633446400) result }
{
    products(a.numbers, b.numbers)
}

/// Sums of up to three products, and one product more.
pub(crate) fn add_product(sums: u64x8, a: BabyBear8Lanes, b: BabyBear8Lanes) -> u64x8
    requires { Each1 (λ n. n ≤ 12159718993900339200) sums }
    ensures value { (l : ℕ) → l < 8 → multiple baby_bear (slice_index_or result l 0)
        ≡ baby_bear.add (multiple baby_bear (slice_index_or sums l 0))
        (baby_bear.mul (lane_of a.numbers l) (lane_of b.numbers l)) }
    ensures small { (most : ℕ) → Each1 (λ n. n ≤ most) sums →
        Each1 (λ n. n ≤ most + 4053239664633446400) result }
{
    sums.strict_add(product(a, b))
}

/// Sums of up to three products each, the second of which counts eleven times.
fn with_eleven(once: u64x8, eleven: u64x8) -> BabyBear8Lanes
    requires once { Each1 (λ n. n ≤ 12159718993900339200) once }
    requires eleven { Each1 (λ n. n ≤ 12159718993900339200) eleven }
    ensures { (l : ℕ) → l < 8 → lane_of result.numbers l
        ≡ baby_bear.add (multiple baby_bear (slice_index_or once l 0))
        (baby_bear.mul (element 11) (multiple baby_bear (slice_index_or eleven l 0))) }
{
    BabyBear8Lanes {
        numbers: reduced_sum(once.strict_add(eleven_times(eleven))),
    }
}

/// Sums of up to four products.
fn reduced(sums: u64x8) -> BabyBear8Lanes
    requires { Each1 (λ n. n ≤ 16212958658533785600) sums }
    ensures { (l : ℕ) → l < 8 → lane_of result.numbers l
        ≡ multiple baby_bear (slice_index_or sums l 0) }
{
    BabyBear8Lanes {
        numbers: reduced_sum(sums),
    }
}

impl Add for BabyBear4x8Lanes {
    type Output = BabyBear4x8Lanes;

    ghost add_gives = { λ a b r. (l : ℕ) → l < 8 →
        lane4_of r l ≡ baby_bear4.add (lane4_of a l) (lane4_of b l) };

    fn add(self, rhs: BabyBear4x8Lanes) -> BabyBear4x8Lanes {
        BabyBear4x8Lanes {
            constant: self.constant + rhs.constant,
            linear: self.linear + rhs.linear,
            quadratic: self.quadratic + rhs.quadratic,
            cubic: self.cubic + rhs.cubic,
        }
    }
}

impl Sub for BabyBear4x8Lanes {
    type Output = BabyBear4x8Lanes;

    ghost sub_gives = { λ a b r. (l : ℕ) → l < 8 →
        lane4_of r l ≡ sub baby_bear4 (lane4_of a l) (lane4_of b l) };

    fn sub(self, rhs: BabyBear4x8Lanes) -> BabyBear4x8Lanes {
        BabyBear4x8Lanes {
            constant: self.constant - rhs.constant,
            linear: self.linear - rhs.linear,
            quadratic: self.quadratic - rhs.quadratic,
            cubic: self.cubic - rhs.cubic,
        }
    }
}

impl Mul for BabyBear4x8Lanes {
    type Output = BabyBear4x8Lanes;

    ghost mul_gives = { λ a b r. (l : ℕ) → l < 8 →
        lane4_of r l ≡ baby_bear4.mul (lane4_of a l) (lane4_of b l) };

    fn mul(self, rhs: BabyBear4x8Lanes) -> BabyBear4x8Lanes {
        let (a, b) = (self, rhs);
        let fourth = product(a.linear, b.cubic);
        let fourth = add_product(fourth, a.quadratic, b.quadratic);
        let fourth = add_product(fourth, a.cubic, b.linear);
        let fifth = product(a.quadratic, b.cubic);
        let fifth = add_product(fifth, a.cubic, b.quadratic);
        let sixth = product(a.cubic, b.cubic);
        let linear = product(a.constant, b.linear);
        let linear = add_product(linear, a.linear, b.constant);
        let quadratic = product(a.constant, b.quadratic);
        let quadratic = add_product(quadratic, a.linear, b.linear);
        let quadratic = add_product(quadratic, a.quadratic, b.constant);
        let cubic = product(a.constant, b.cubic);
        let cubic = add_product(cubic, a.linear, b.quadratic);
        let cubic = add_product(cubic, a.quadratic, b.linear);
        BabyBear4x8Lanes {
            constant: with_eleven(product(a.constant, b.constant), fourth),
            linear: with_eleven(linear, fifth),
            quadratic: with_eleven(quadratic, sixth),
            cubic: reduced(add_product(cubic, a.cubic, b.constant)),
        }
    }
}

impl Neg for BabyBear4x8Lanes {
    type Output = BabyBear4x8Lanes;

    ghost neg_gives = { λ a r. (l : ℕ) → l < 8 →
        lane4_of r l ≡ baby_bear4.neg (lane4_of a l) };

    fn neg(self) -> BabyBear4x8Lanes {
        BabyBear4x8Lanes {
            constant: -self.constant,
            linear: -self.linear,
            quadratic: -self.quadratic,
            cubic: -self.cubic,
        }
    }
}
