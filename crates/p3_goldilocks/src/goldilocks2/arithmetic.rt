//! Arithmetic of polynomials modulo `X^2 - 7`.

ghost use Rattle.std.specs.Prelude.{◌≡◌, ◌≤◌};
ghost use Rattle.algebra.specs.Field.{sub};
ghost use Rattle.p3_goldilocks.specs.Goldilocks.{goldilocks, element};
ghost use Rattle.p3_goldilocks.specs.Goldilocks2.{goldilocks2};

use super::Goldilocks2;
use crate::goldilocks::{Goldilocks, reduced};
use p3_field_core::prime_field::PrimeField64;
use std::ops::{Add, Mul, Neg, Sub};

/// A product, and a number that is added before both are reduced.
fn product_plus(a: Goldilocks, b: Goldilocks, number: u128) -> Goldilocks
    requires { number ≤ 129127208515966861312 }
    ensures { result ≡ goldilocks.add (goldilocks.mul a b) (element number) }
{
    reduced(u128::from(a.as_canonical_u64()) * u128::from(b.as_canonical_u64()) + number)
}

impl Add for Goldilocks2 {
    type Output = Goldilocks2;

    ghost add_gives = { λ a b r. r ≡ goldilocks2.add a b };

    #[tactic(auto, unfolding(crate::specs::Goldilocks2::goldilocks2))]
    fn add(self, rhs: Goldilocks2) -> Goldilocks2 {
        Goldilocks2 {
            constant: self.constant + rhs.constant,
            linear: self.linear + rhs.linear,
        }
    }
}

impl Sub for Goldilocks2 {
    type Output = Goldilocks2;

    ghost sub_gives = { λ a b r. r ≡ sub goldilocks2 a b };

    #[tactic(auto, unfolding(crate::specs::Goldilocks2::goldilocks2))]
    fn sub(self, rhs: Goldilocks2) -> Goldilocks2 {
        Goldilocks2 {
            constant: self.constant - rhs.constant,
            linear: self.linear - rhs.linear,
        }
    }
}

impl Mul for Goldilocks2 {
    type Output = Goldilocks2;

    ghost mul_gives = { λ a b r. r ≡ goldilocks2.mul a b };

    fn mul(self, rhs: Goldilocks2) -> Goldilocks2 {
        let (a, b) = (self, rhs);
        // X^2 is 7; seven times an element fits beside the product of two
        let square = (a.linear * b.linear).as_canonical_u64();
        let cross = (a.linear * b.constant).as_canonical_u64();
        Goldilocks2 {
            constant: product_plus(a.constant, b.constant, 7 * u128::from(square)),
            linear: product_plus(a.constant, b.linear, u128::from(cross)),
        }
    }
}

impl Neg for Goldilocks2 {
    type Output = Goldilocks2;

    ghost neg_gives = { λ a r. r ≡ goldilocks2.neg a };

    #[tactic(auto, unfolding(crate::specs::Goldilocks2::goldilocks2))]
    fn neg(self) -> Goldilocks2 {
        Goldilocks2 {
            constant: -self.constant,
            linear: -self.linear,
        }
    }
}
