//! Arithmetic modulo 2130706433.

ghost use Rattle.std.specs.Prelude.{◌≡◌, ◌<◌, ◌*◌};
ghost use Rattle.algebra.specs.Field.{sub};
ghost use Rattle.p3_koala_bear.specs.KoalaBear.{koala_bear, element};

use super::KoalaBear;
use std::ops::{Add, Mul, Neg, Sub};

/// The order of the field.
pub(super) const P: u32 = 2_130_706_433;

/// The element of a canonical number.
pub(super) fn from_number(value: u32) -> KoalaBear
    requires { value < 2130706433 }
    ensures { result ≡ element value }
{
    KoalaBear { value }
}

/// The element of a number below twice the order.
pub(super) fn reduced_once(number: u32) -> KoalaBear
    requires { number < 2 * 2130706433 }
    ensures { result ≡ element number }
{
    KoalaBear {
        value: if number >= P { number - P } else { number },
    }
}

impl Add for KoalaBear {
    type Output = KoalaBear;

    ghost add_gives = { λ a b r. r ≡ koala_bear.add a b };

    #[tactic(auto, unfolding(crate::specs::KoalaBear::koala_bear))]
    fn add(self, rhs: KoalaBear) -> KoalaBear {
        reduced_once(self.value + rhs.value)
    }
}

impl Sub for KoalaBear {
    type Output = KoalaBear;

    ghost sub_gives = { λ a b r. r ≡ sub koala_bear a b };

    #[tactic(auto, unfolding(crate::specs::KoalaBear::koala_bear))]
    fn sub(self, rhs: KoalaBear) -> KoalaBear {
        // a difference below 0 wraps, and comes back by the order; one that doesn't is the lesser
        // of the two
        let difference = self.value.wrapping_sub(rhs.value);
        KoalaBear {
            value: difference.min(difference.wrapping_add(P)),
        }
    }
}

impl Mul for KoalaBear {
    type Output = KoalaBear;

    ghost mul_gives = { λ a b r. r ≡ koala_bear.mul a b };

    #[tactic(auto, unfolding(crate::specs::KoalaBear::koala_bear))]
    fn mul(self, rhs: KoalaBear) -> KoalaBear {
        let product = u64::from(self.value) * u64::from(rhs.value);
        KoalaBear {
            value: (product % u64::from(P)) as u32,
        }
    }
}

impl Neg for KoalaBear {
    type Output = KoalaBear;

    ghost neg_gives = { λ a r. r ≡ koala_bear.neg a };

    #[tactic(auto, unfolding(crate::specs::KoalaBear::koala_bear))]
    fn neg(self) -> KoalaBear {
        KoalaBear {
            value: if self.value == 0 { 0 } else { P - self.value },
        }
    }
}
