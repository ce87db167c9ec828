//! Goldilocks, the prime field of `2^64 - 2^32 + 1` elements, and Goldilocks2, its extension of
//! degree 2.
#![tactic(auto)]

pub mod goldilocks;
pub mod goldilocks2;

pub use crate::goldilocks::Goldilocks;
pub use crate::goldilocks2::Goldilocks2;
