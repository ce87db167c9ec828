//! What a STARK's prover asks of a scheme over cosets of two-adic subgroups: that what it commits
//! to, extends and reads are polynomials in the trace's field. Both schemes are such.
#![tactic(auto)]

pub mod hiding;
pub mod plain;
pub mod two_adic;

pub use crate::two_adic::TwoAdicStarkPcs;
