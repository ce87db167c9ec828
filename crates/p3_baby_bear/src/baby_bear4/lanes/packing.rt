//! The lanes of packed elements.

ghost use Rattle.std.specs.Prelude.{◌≡◌, ◌<◌, refl};
ghost use Rattle.std.proofs.Common.{lit<};
ghost use Rattle.p3_baby_bear.specs.Lanes4.{lane4_of};

use super::BabyBear4x8Lanes;
use crate::baby_bear::{BabyBear, BabyBear8Lanes};
use crate::baby_bear4::BabyBear4;
use p3_field_core::packing::{PackableExtension, PackableField, PackedExtension, PackedField};

impl PackedField<BabyBear4> for BabyBear4x8Lanes {
    ghost WIDTH = { 8 };

    const WIDTH: usize = 8;

    ghost lane = { lane4_of };

    fn broadcast(value: BabyBear4) -> BabyBear4x8Lanes {
        BabyBear4x8Lanes {
            constant: BabyBear8Lanes::broadcast(value.constant),
            linear: BabyBear8Lanes::broadcast(value.linear),
            quadratic: BabyBear8Lanes::broadcast(value.quadratic),
            cubic: BabyBear8Lanes::broadcast(value.cubic),
        }
    }

    fn with_lane(self, index: usize, value: BabyBear4) -> BabyBear4x8Lanes {
        BabyBear4x8Lanes {
            constant: self.constant.with_lane(index, value.constant),
            linear: self.linear.with_lane(index, value.linear),
            quadratic: self.quadratic.with_lane(index, value.quadratic),
            cubic: self.cubic.with_lane(index, value.cubic),
        }
    }

    fn lane(self, index: usize) -> BabyBear4 {
        BabyBear4 {
            constant: self.constant.lane(index),
            linear: self.linear.lane(index),
            quadratic: self.quadratic.lane(index),
            cubic: self.cubic.lane(index),
        }
    }

    ghost width_law = { lit< tt };

    ghost can_add_law = { λ _ _. tt };

    ghost add_law = { λ a b r h. h };

    ghost can_sub_law = { λ _ _. tt };

    ghost sub_law = { λ a b r h. h };

    ghost can_mul_law = { λ _ _. tt };

    ghost mul_law = { λ a b r h. h };

    ghost can_neg_law = { λ _. tt };

    ghost neg_law = { λ a r h. h };
}

impl PackedExtension<BabyBear, BabyBear4, BabyBear8Lanes> for BabyBear4x8Lanes {
    fn scale_lanes(self, factors: BabyBear8Lanes) -> BabyBear4x8Lanes {
        BabyBear4x8Lanes {
            constant: self.constant * factors,
            linear: self.linear * factors,
            quadratic: self.quadratic * factors,
            cubic: self.cubic * factors,
        }
    }

    ghost same_width = { refl };
}

/// Without lanes of its own, the extension is a packing of itself.
impl PackedField<BabyBear4> for BabyBear4 {
    ghost WIDTH = { 1 };

    const WIDTH: usize = 1;

    ghost lane = { λ x _. x };

    fn broadcast(value: BabyBear4) -> BabyBear4 {
        value
    }

    fn with_lane(self, index: usize, value: BabyBear4) -> BabyBear4 {
        value
    }

    fn lane(self, index: usize) -> BabyBear4 {
        self
    }

    ghost width_law = { lit< tt };

    ghost can_add_law = { λ _ _. tt };

    ghost add_law = { λ a b r h _ _. h };

    ghost can_sub_law = { λ _ _. tt };

    ghost sub_law = { λ a b r h _ _. h };

    ghost can_mul_law = { λ _ _. tt };

    ghost mul_law = { λ a b r h _ _. h };

    ghost can_neg_law = { λ _. tt };

    ghost neg_law = { λ a r h _ _. h };
}

impl PackableField for BabyBear4 {
    type Packing = BabyBear4;
}

impl PackableExtension<BabyBear> for BabyBear4 {
    type ExtensionPacking = BabyBear4x8Lanes;
}
