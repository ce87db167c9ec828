//! An element of the extension by itself is a packing, of one lane, over those of the base field.

ghost use Rattle.std.specs.Prelude.{◌<◌, refl};
ghost use Rattle.std.proofs.Common.{lit<};

use super::Goldilocks2;
use crate::goldilocks::Goldilocks;
use p3_field_core::extension::ExtensionField;
use p3_field_core::packing::{PackableExtension, PackableField, PackedExtension, PackedField};

impl PackedField<Goldilocks2> for Goldilocks2 {
    ghost WIDTH = { 1 };

    const WIDTH: usize = 1;

    ghost lane = { λ x _. x };

    fn broadcast(value: Goldilocks2) -> Goldilocks2 {
        value
    }

    fn with_lane(self, index: usize, value: Goldilocks2) -> Goldilocks2 {
        value
    }

    fn lane(self, index: usize) -> Goldilocks2 {
        self
    }

    ghost width_law = { lit< tt };

    ghost can_add_law = { λ _ _. tt };

    ghost add_law = { λ a b r h _ _. h };

    ghost can_sub_law = { λ _ _. tt };

    ghost sub_law = { λ a b r h _ _. h };

    ghost can_mul_law = { λ _ _. tt };

    ghost mul_law = { λ a b r h _ _. h };

    ghost can_neg_law = { λ _. tt };

    ghost neg_law = { λ a r h _ _. h };
}

impl PackableField for Goldilocks2 {
    type Packing = Goldilocks2;
}

impl PackedExtension<Goldilocks, Goldilocks2, Goldilocks> for Goldilocks2 {
    fn scale_lanes(self, factors: Goldilocks) -> Goldilocks2 {
        self.scale(factors)
    }

    ghost same_width = { refl };
}

impl PackableExtension<Goldilocks> for Goldilocks2 {
    type ExtensionPacking = Goldilocks2;
}
