//! Goldilocks, the prime field of `2^64 - 2^32 + 1` elements.

ghost use Rattle.std.specs.Prelude.{◌<◌};

mod arithmetic;
mod bytes;
pub(crate) mod constants;
mod field;
mod inverse;
pub mod laws;
mod packing;
mod two_adic;

pub(crate) use self::arithmetic::reduced;

/// An element of the prime field of 18446744069414584321 elements, kept as its canonical number.
#[derive(Clone, Copy, Debug, PartialEq, Eq)]
pub struct Goldilocks {
    value: u64,
    ghost canonical: { value < 18446744069414584321 },
}
