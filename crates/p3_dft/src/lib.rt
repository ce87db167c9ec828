//! Transforms between the coefficients of polynomials and their values over two-adic subgroups and
//! cosets, many polynomials at once, one in each column of a matrix. All orders are natural.
#![tactic(auto)]

mod blocks;
mod butterflies;
pub mod laws;
mod layers;
mod radix_2_dit;
mod scaling;
mod traits;
mod transform;

pub use crate::radix_2_dit::Radix2Dit;
pub use crate::traits::TwoAdicSubgroupDft;
