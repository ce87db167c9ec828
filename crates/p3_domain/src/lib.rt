//! Domains of values, as a STARK uses them: the trait `PolynomialSpace` of the crate `p3-commit`,
//! with a domain's points, what vanishes on it, what selects its rows, a domain disjoint from it
//! and the pieces into which it is split; and its implementation for two-adic cosets.
#![tactic(auto)]

mod ceil_log;
pub mod laws;
pub mod space;
mod strided;
pub mod two_adic;

pub use crate::laws::split_domains_law;
pub use crate::space::PolynomialSpace;
pub use p3_uni_stark_identity::LagrangeSelectors;
