//! Arithmetic modulo 2013265921.

ghost use Rattle.std.specs.Prelude.{◌≡◌, ◌<◌, ◌*◌};
ghost use Rattle.algebra.specs.Field.{sub};
ghost use Rattle.p3_baby_bear.specs.BabyBear.{baby_bear, element};

use super::BabyBear;
use std::ops::{Add, Mul, Neg, Sub};

/// The order of the field.
pub(super) const P: u32 = 2_013_265_921;

/// The element of a canonical number.
pub(super) fn from_number(value: u32) -> BabyBear
    requires { value < 2013265921 }
    ensures { result ≡ element value }
{
    BabyBear { value }
}

/// The element of a number below twice the order.
pub(super) fn reduced_once(number: u32) -> BabyBear
    requires { number < 2 * 2013265921 }
    ensures { result ≡ element number }
{
    BabyBear {
        value: if number >= P { number - P } else { number },
    }
}

impl Add for BabyBear {
    type Output = BabyBear;

    ghost add_gives = { λ a b r. r ≡ baby_bear.add a b };

    #[tactic(auto, unfolding(crate::specs::BabyBear::baby_bear))]
    fn add(self, rhs: BabyBear) -> BabyBear {
        reduced_once(self.value + rhs.value)
    }
}

impl Sub for BabyBear {
    type Output = BabyBear;

    ghost sub_gives = { λ a b r. r ≡ sub baby_bear a b };

    #[tactic(auto, unfolding(crate::specs::BabyBear::baby_bear))]
    fn sub(self, rhs: BabyBear) -> BabyBear {
        // a difference below 0 wraps, and comes back by the order; one that doesn't is the lesser
        // of the two
        let difference = self.value.wrapping_sub(rhs.value);
        BabyBear {
            value: difference.min(difference.wrapping_add(P)),
        }
    }
}

impl Mul for BabyBear {
    type Output = BabyBear;

    ghost mul_gives = { λ a b r. r ≡ baby_bear.mul a b };

    #[tactic(auto, unfolding(crate::specs::BabyBear::baby_bear))]
    fn mul(self, rhs: BabyBear) -> BabyBear {
        let product = u64::from(self.value) * u64::from(rhs.value);
        BabyBear {
            value: (product % u64::from(P)) as u32,
        }
    }
}

impl Neg for BabyBear {
    type Output = BabyBear;

    ghost neg_gives = { λ a r. r ≡ baby_bear.neg a };

    #[tactic(auto, unfolding(crate::specs::BabyBear::baby_bear))]
    fn neg(self) -> BabyBear {
        BabyBear {
            value: if self.value == 0 { 0 } else { P - self.value },
        }
    }
}
