//! Small elements, for the constants of the extension: a constant can't name those of a trait.

use super::KoalaBear;

pub(crate) const ZERO: KoalaBear = KoalaBear { value: 0 };

pub(crate) const ONE: KoalaBear = KoalaBear { value: 1 };

pub(crate) const TWO: KoalaBear = KoalaBear { value: 2 };
