//! A field that is a packing of itself.

ghost use Rattle.std.specs.Prelude.{◌<◌};

#[cfg(test)]
mod arithmetic;
#[cfg(test)]
mod field;
#[cfg(test)]
mod packing;

/// An element of BabyBear, as of a field for which no lanes are known.
#[derive(Clone, Copy, Debug, PartialEq, Eq)]
pub struct OneLane {
    value: u32,
    ghost canonical: { value < 2013265921 },
}
