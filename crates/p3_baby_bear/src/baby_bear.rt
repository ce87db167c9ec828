//! BabyBear, the prime field of `2^31 - 2^27 + 1` elements.

ghost use Rattle.std.specs.Prelude.{◌<◌};

mod arithmetic;
mod bytes;
pub(crate) mod constants;
mod factor;
mod field;
mod inverse;
mod lanes;
pub mod laws;
mod two_adic;

pub use self::factor::BabyBearFactor;
pub use self::lanes::BabyBear8Lanes;
pub(crate) use self::lanes::lanes_of;

/// An element of the prime field of 2013265921 elements, kept as its canonical number.
#[derive(Clone, Copy, Debug, PartialEq, Eq)]
pub struct BabyBear {
    value: u32,
    ghost canonical: { value < 2013265921 },
}
