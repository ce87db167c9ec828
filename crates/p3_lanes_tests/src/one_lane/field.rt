//! The field.

ghost use Rattle.std.specs.Prelude.{◌≡◌};
ghost use Rattle.p3_field.specs.BabyBear.{element};
ghost use Rattle.p3_field.specs.BabyBearLaws.{two_adicity_small};
ghost use Rattle.p3_lanes_tests.specs.OneLane.{one_lane, one_lane_of, one_lane_root};
ghost use Rattle.p3_lanes_tests.specs.OneLane.{one_lane_laws, zero1_is, one1_is, two1_is};
ghost use Rattle.p3_lanes_tests.specs.OneLane.{generator1_is, eq1_same, one_lane_roots};

use super::OneLane;
use super::arithmetic::{as_baby_bear, of_baby_bear};
use p3_field::{BabyBear, Field, TwoAdicField};

impl Field for OneLane {
    type Prepared = OneLane;

    ghost ops = { one_lane };

    ghost factor_of = { λ x. x };

    ghost ZERO = { one_lane_of (element 0) };

    const ZERO: OneLane = OneLane { value: 0 };

    ghost ONE = { one_lane_of (element 1) };

    const ONE: OneLane = OneLane { value: 1 };

    ghost TWO = { one_lane_of (element 2) };

    const TWO: OneLane = OneLane { value: 2 };

    ghost GENERATOR = { one_lane_of (element 31) };

    const GENERATOR: OneLane = OneLane { value: 31 };

    ghost BITS = { 31 };

    const BITS: usize = 31;

    fn prepare(self) -> OneLane {
        self
    }

    fn times(self, factor: OneLane) -> OneLane {
        self * factor
    }

    #[tactic(auto, unfolding(crate::specs::OneLane::one_lane))]
    fn halve(self) -> OneLane {
        of_baby_bear(as_baby_bear(self).halve())
    }

    fn from_u64(n: u64) -> OneLane {
        of_baby_bear(BabyBear::from_u64(n))
    }

    #[tactic(auto, unfolding(crate::specs::OneLane::one_lane))]
    fn inverse(self) -> OneLane {
        of_baby_bear(as_baby_bear(self).inverse())
    }

    ghost laws = { one_lane_laws };

    ghost zero_law = { zero1_is };

    ghost one_law = { one1_is };

    ghost two_law = { two1_is };

    ghost generator_law = { generator1_is };

    ghost eq_law = { eq1_same };

    ghost can_add_law = { λ _ _. tt };

    ghost add_law = { λ a b r h. h };

    ghost can_sub_law = { λ _ _. tt };

    ghost sub_law = { λ a b r h. h };

    ghost can_mul_law = { λ _ _. tt };

    ghost mul_law = { λ a b r h. h };

    ghost can_neg_law = { λ _. tt };

    ghost neg_law = { λ a r h. h };
}

impl TwoAdicField for OneLane {
    ghost TWO_ADICITY = { 27 };

    const TWO_ADICITY: usize = 27;

    ghost root = { one_lane_root };

    fn two_adic_generator(bits: usize) -> OneLane {
        of_baby_bear(BabyBear::two_adic_generator(bits))
    }

    ghost two_adicity_law = { two_adicity_small };

    ghost roots_law = { one_lane_roots };
}
