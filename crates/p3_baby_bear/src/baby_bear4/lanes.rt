//! Eight elements of BabyBear4 in one value.

mod arithmetic;
mod packing;

pub(crate) use self::arithmetic::{add_product, product};
use crate::baby_bear::BabyBear8Lanes;

/// Eight elements, coefficient by coefficient.
#[derive(Clone, Copy)]
pub struct BabyBear4x8Lanes {
    pub(super) constant: BabyBear8Lanes,
    pub(super) linear: BabyBear8Lanes,
    pub(super) quadratic: BabyBear8Lanes,
    pub(super) cubic: BabyBear8Lanes,
}
