//! Goldilocks2, the extension of Goldilocks by a root of `X^2 - 7`.

mod arithmetic;
mod bytes;
mod extension;
mod field;
pub mod laws;
mod packing;

use crate::goldilocks::Goldilocks;

/// An element of the extension of degree 2: a polynomial of degree below 2 over Goldilocks, modulo
/// `X^2 - 7`.
#[derive(Clone, Copy, Debug, PartialEq, Eq)]
pub struct Goldilocks2 {
    constant: Goldilocks,
    linear: Goldilocks,
}
