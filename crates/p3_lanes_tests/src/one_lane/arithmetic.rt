//! Arithmetic of the elements: that of BabyBear.

ghost use Rattle.std.specs.Prelude.{◌≡◌};
ghost use Rattle.algebra.specs.Field.{sub};
ghost use Rattle.p3_lanes_tests.specs.OneLane.{one_lane, one_lane_of, of_one_lane};

use super::OneLane;
use p3_field::{BabyBear, PrimeField64};
use std::ops::{Add, Mul, Neg, Sub};

/// The element as one of BabyBear.
pub(super) fn as_baby_bear(x: OneLane) -> BabyBear
    ensures { result ≡ of_one_lane x }
{
    BabyBear::from_canonical(u64::from(x.value))
}

/// The element that is this one of BabyBear.
pub(super) fn of_baby_bear(x: BabyBear) -> OneLane
    ensures { result ≡ one_lane_of x }
{
    OneLane {
        value: x.as_canonical_u64() as u32,
    }
}

impl Add for OneLane {
    type Output = OneLane;

    ghost add_gives = { λ a b r. r ≡ one_lane.add a b };

    #[tactic(auto, unfolding(crate::specs::OneLane::one_lane))]
    fn add(self, rhs: OneLane) -> OneLane {
        of_baby_bear(as_baby_bear(self) + as_baby_bear(rhs))
    }
}

impl Sub for OneLane {
    type Output = OneLane;

    ghost sub_gives = { λ a b r. r ≡ sub one_lane a b };

    #[tactic(auto, unfolding(crate::specs::OneLane::one_lane))]
    fn sub(self, rhs: OneLane) -> OneLane {
        of_baby_bear(as_baby_bear(self) - as_baby_bear(rhs))
    }
}

impl Mul for OneLane {
    type Output = OneLane;

    ghost mul_gives = { λ a b r. r ≡ one_lane.mul a b };

    #[tactic(auto, unfolding(crate::specs::OneLane::one_lane))]
    fn mul(self, rhs: OneLane) -> OneLane {
        of_baby_bear(as_baby_bear(self) * as_baby_bear(rhs))
    }
}

impl Neg for OneLane {
    type Output = OneLane;

    ghost neg_gives = { λ a r. r ≡ one_lane.neg a };

    #[tactic(auto, unfolding(crate::specs::OneLane::one_lane))]
    fn neg(self) -> OneLane {
        of_baby_bear(-as_baby_bear(self))
    }
}
