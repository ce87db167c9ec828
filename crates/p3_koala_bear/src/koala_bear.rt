//! KoalaBear, the prime field of `2^31 - 2^24 + 1` elements.

ghost use Rattle.std.specs.Prelude.{◌<◌};

mod arithmetic;
mod bytes;
pub(crate) mod constants;
mod factor;
mod field;
mod inverse;
pub mod laws;
mod packing;
mod two_adic;

pub use self::factor::KoalaBearFactor;

/// An element of the prime field of 2130706433 elements, kept as its canonical number.
#[derive(Clone, Copy, Debug, PartialEq, Eq)]
pub struct KoalaBear {
    value: u32,
    ghost canonical: { value < 2130706433 },
}
