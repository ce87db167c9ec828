//! Elements for the constants of the extension: a constant can't name those of a trait.

use super::Goldilocks;

pub(crate) const ZERO: Goldilocks = Goldilocks { value: 0 };

pub(crate) const ONE: Goldilocks = Goldilocks { value: 1 };

pub(crate) const TWO: Goldilocks = Goldilocks { value: 2 };

/// The constant coefficient of an element that generates the extension's multiplicative group.
pub(crate) const GENERATOR_CONSTANT: Goldilocks = Goldilocks {
    value: 18_081_566_051_660_590_251,
};

/// Its other coefficient.
pub(crate) const GENERATOR_LINEAR: Goldilocks = Goldilocks {
    value: 16_121_475_356_294_670_766,
};
