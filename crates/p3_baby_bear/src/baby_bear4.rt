//! BabyBear4, the extension of BabyBear by a root of `X^4 - 11`.

mod arithmetic;
mod bytes;
mod column_sums;
mod extension;
mod field;
mod lanes;
pub mod laws;
mod row_sums;

pub use self::lanes::BabyBear4x8Lanes;
use crate::baby_bear::BabyBear;

/// An element of the extension of degree 4: a polynomial of degree below 4 over BabyBear, modulo
/// `X^4 - 11`.
#[derive(Clone, Copy, Debug, PartialEq, Eq)]
pub struct BabyBear4 {
    constant: BabyBear,
    linear: BabyBear,
    quadratic: BabyBear,
    cubic: BabyBear,
}
