//! The polynomials of a matrix's columns, evaluated on a larger coset: extended and committed to,
//! and read back from a commitment's words on any coset of any size.
#![tactic(auto)]

mod evaluations;
pub mod extension;
mod fitting;

pub use crate::evaluations::evaluations_on_domain;
pub use crate::extension::{commit_evaluations, extend, extend_each};
