//! An element by itself is a packing, of one lane.

ghost use Rattle.std.specs.Prelude.{◌<◌};
ghost use Rattle.std.proofs.Common.{lit<};

use super::Goldilocks;
use p3_field_core::packing::{PackableField, PackedField};

impl PackedField<Goldilocks> for Goldilocks {
    ghost WIDTH = { 1 };

    const WIDTH: usize = 1;

    ghost lane = { λ x _. x };

    fn broadcast(value: Goldilocks) -> Goldilocks {
        value
    }

    fn with_lane(self, index: usize, value: Goldilocks) -> Goldilocks {
        value
    }

    fn lane(self, index: usize) -> Goldilocks {
        self
    }

    ghost width_law = { lit< tt };

    ghost can_add_law = { λ _ _. tt };

    ghost add_law = { λ a b r h _ _. h };

    ghost can_sub_law = { λ _ _. tt };

    ghost sub_law = { λ a b r h _ _. h };

    ghost can_mul_law = { λ _ _. tt };

    ghost mul_law = { λ a b r h _ _. h };

    ghost can_neg_law = { λ _. tt };

    ghost neg_law = { λ a r h _ _. h };
}

impl PackableField for Goldilocks {
    type Packing = Goldilocks;
}
