//! Commutative fields in which 2 isn't zero.

ghost use Rattle.std.specs.Prelude.{◌≡◌, ◌≢◌, ◌↔◌, ◌^◌, IsTrue, IsSome, IfSome, ℕ};
ghost use Rattle.algebra.specs.Field.{FieldOps, IsField, sub, multiple, pow};

use std::ops::{Add, Mul, Neg, Sub};

/// A commutative field in which 2 isn't zero. Every value of the type is an element.
pub trait Field: Copy
    + Eq
    + Add<Self, Output = Self>
    + Sub<Self, Output = Self>
    + Mul<Self, Output = Self>
    + Neg<Output = Self> {
    /// An element made ready as the factor of many products.
    type Prepared: Copy;

    ghost ops: { FieldOps Self };

    ghost factor_of: { Self.Prepared → Self };

    ghost ZERO: { Self };

    const ZERO: Self;

    ghost ONE: { Self };

    const ONE: Self;

    ghost TWO: { Self };

    /// One and one.
    const TWO: Self;

    ghost GENERATOR: { Self };

    /// An element that isn't zero: the shift of the evaluation coset.
    const GENERATOR: Self;

    ghost BITS: { ℕ };

    /// How many bits the number of elements has.
    const BITS: usize;

    /// Whether this is zero.
    fn is_zero(self) -> bool
        ensures { IsTrue result ↔ (self ≡ ops.zero) }
    {
        self == Self::ZERO
    }

    /// Twice the element.
    fn double(self) -> Self
        ensures { result ≡ ops.add self self }
    {
        self + self
    }

    /// The element times itself.
    fn square(self) -> Self
        ensures { result ≡ ops.mul self self }
    {
        self * self
    }

    /// The element made ready as the factor of many products. This costs a product or more: `times`
    /// gains it back where a field has a faster way.
    fn prepare(self) -> Self::Prepared
        ensures { factor_of result ≡ self };

    /// The product with a factor that was made ready.
    fn times(self, factor: Self::Prepared) -> Self
        ensures { result ≡ ops.mul self (factor_of factor) };

    /// The element whose double is this one.
    fn halve(self) -> Self
        ensures { ops.add result result ≡ self };

    /// The element divided by `2^exponent`, by halving.
    fn div_2exp_u64(self, exponent: u64) -> Self
        ensures { ops.mul (multiple ops (2 ^ exponent)) result ≡ self }
    {
        let mut quotient = self;
        for _ in 0..exponent {
            quotient = quotient.halve();
        }
        quotient
    }

    /// The element to a power, by squaring and multiplying.
    fn exp_u64(self, power: u64) -> Self
        ensures { result ≡ pow ops self power }
    {
        let mut product = Self::ONE;
        let mut base = self;
        let mut remaining = power;
        while remaining > 0 {
            if remaining % 2 == 1 {
                product = product * base;
            }
            base = base.square();
            remaining /= 2;
        }
        product
    }

    /// The element to the power `2^log_power`, by squaring.
    fn exp_power_of_2(self, log_power: usize) -> Self
        ensures { result ≡ pow ops self (2 ^ log_power) }
    {
        let mut power = self;
        for _ in 0..log_power {
            power = power.square();
        }
        power
    }

    /// The `n`-th multiple of one.
    fn from_u64(n: u64) -> Self
        ensures { result ≡ multiple ops n };

    /// The multiplicative inverse. The caller knows that the element isn't zero; `try_inverse`
    /// tests it.
    fn inverse(self) -> Self
        requires nonzero { self ≢ ops.zero }
        ensures { result ≡ ops.inv self };

    /// The multiplicative inverse, or `None` for zero.
    fn try_inverse(self) -> Option<Self>
        ensures nonzero { IsSome result ↔ (self ≢ ops.zero) }
        ensures value { IfSome result (λ x. x ≡ ops.inv self) }
    {
        if self.is_zero() {
            None
        } else {
            Some(self.inverse())
        }
    }

    ghost laws: { IsField ops };

    ghost zero_law: { ZERO ≡ ops.zero };

    ghost one_law: { ONE ≡ ops.one };

    ghost two_law: { TWO ≡ ops.add ops.one ops.one };

    ghost generator_law: { GENERATOR ≢ ops.zero };

    ghost eq_law: { (a b : Self) → IsTrue (Self.eq a b) ↔ (a ≡ b) };

    ghost can_add_law: { (a b : Self) → Self.can_add a b };

    ghost add_law: { (a b r : Self) → Self.add_gives a b r → r ≡ ops.add a b };

    ghost can_sub_law: { (a b : Self) → Self.can_sub a b };

    ghost sub_law: { (a b r : Self) → Self.sub_gives a b r → r ≡ sub ops a b };

    ghost can_mul_law: { (a b : Self) → Self.can_mul a b };

    ghost mul_law: { (a b r : Self) → Self.mul_gives a b r → r ≡ ops.mul a b };

    ghost can_neg_law: { (a : Self) → Self.can_neg a };

    ghost neg_law: { (a r : Self) → Self.neg_gives a r → r ≡ ops.neg a };
}
