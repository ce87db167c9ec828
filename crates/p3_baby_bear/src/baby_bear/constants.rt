//! Small elements, for the constants of the extension: a constant can't name those of a trait.

use super::BabyBear;

pub(crate) const ZERO: BabyBear = BabyBear { value: 0 };

pub(crate) const ONE: BabyBear = BabyBear { value: 1 };

pub(crate) const TWO: BabyBear = BabyBear { value: 2 };

pub(crate) const EIGHT: BabyBear = BabyBear { value: 8 };
