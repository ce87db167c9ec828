//! KoalaBear4, the extension of KoalaBear by a root of `X^4 - 3`.

mod arithmetic;
mod bytes;
mod extension;
mod field;
pub mod laws;
mod packing;

use crate::koala_bear::KoalaBear;

/// An element of the extension of degree 4: a polynomial of degree below 4 over KoalaBear, modulo
/// `X^4 - 3`.
#[derive(Clone, Copy, Debug, PartialEq, Eq)]
pub struct KoalaBear4 {
    constant: KoalaBear,
    linear: KoalaBear,
    quadratic: KoalaBear,
    cubic: KoalaBear,
}
