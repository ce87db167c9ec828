//! An element of the extension by itself is a packing, of one lane, over those of the base field.

ghost use Rattle.std.specs.Prelude.{◌<◌, refl};
ghost use Rattle.std.proofs.Common.{lit<};

use super::KoalaBear4;
use crate::koala_bear::KoalaBear;
use p3_field_core::extension::ExtensionField;
use p3_field_core::packing::{PackableExtension, PackableField, PackedExtension, PackedField};

impl PackedField<KoalaBear4> for KoalaBear4 {
    ghost WIDTH = { 1 };

    const WIDTH: usize = 1;

    ghost lane = { λ x _. x };

    fn broadcast(value: KoalaBear4) -> KoalaBear4 {
        value
    }

    fn with_lane(self, index: usize, value: KoalaBear4) -> KoalaBear4 {
        value
    }

    fn lane(self, index: usize) -> KoalaBear4 {
        self
    }

    ghost width_law = { lit< tt };

    ghost can_add_law = { λ _ _. tt };

    ghost add_law = { λ a b r h _ _. h };

    ghost can_sub_law = { λ _ _. tt };

    ghost sub_law = { λ a b r h _ _. h };

    ghost can_mul_law = { λ _ _. tt };

    ghost mul_law = { λ a b r h _ _. h };

    ghost can_neg_law = { λ _. tt };

    ghost neg_law = { λ a r h _ _. h };
}

impl PackableField for KoalaBear4 {
    type Packing = KoalaBear4;
}

impl PackedExtension<KoalaBear, KoalaBear4, KoalaBear> for KoalaBear4 {
    fn scale_lanes(self, factors: KoalaBear) -> KoalaBear4 {
        self.scale(factors)
    }

    ghost same_width = { refl };
}

impl PackableExtension<KoalaBear> for KoalaBear4 {
    type ExtensionPacking = KoalaBear4;
}
