//! Elements, points and domains of the numbers by which records name them, over any field that
//! schemes are made over, and the matrices and claims that records list, read and written so. A
//! reader refuses by name what isn't well formed, with its place.
#![tactic(auto)]

mod claims;
mod elements;
mod matrices;

pub use crate::claims::{ClaimOn, Claims, claims_in, claims_out};
pub use crate::elements::{Numbered, coefficients};
pub use crate::matrices::{
    ElementMatrix, Evaluations, batch_evaluations, batch_points, evaluations_of_all,
};
