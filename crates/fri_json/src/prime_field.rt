//! The fields by their names.

ghost use Rattle.std.specs.Prelude.{◌<◌};

use p3_field::{BabyBear, TwoAdicField};
use p3_goldilocks::Goldilocks;
use p3_koala_bear::KoalaBear;
use serde::{Deserialize, Serialize};

/// The field that a request or a statement is over, by its name: BabyBear where it names none.
#[derive(Clone, Copy, Debug, PartialEq, Eq, Serialize, Deserialize)]
pub enum FieldName {
    BabyBear,
    KoalaBear,
    Goldilocks,
}

impl FieldName {
    /// Whether it needn't be named.
    pub(crate) fn is_default(&self) -> bool {
        matches!(self, FieldName::BabyBear)
    }

    /// The greatest logarithm of a subgroup's order.
    pub(crate) fn two_adicity(&self) -> usize
        ensures { result < 64 }
    {
        match self {
            FieldName::BabyBear => BabyBear::TWO_ADICITY,
            FieldName::KoalaBear => KoalaBear::TWO_ADICITY,
            FieldName::Goldilocks => Goldilocks::TWO_ADICITY,
        }
    }
}

impl Default for FieldName {
    fn default() -> FieldName {
        FieldName::BabyBear
    }
}
