//! Hiding commitments over two-adic fields: what is committed to is masked by random values, as
//! section 4.2 of <https://eprint.iacr.org/2024/1037> has it. What is proved is what stands where
//! and what is opened of it; that an opening shows nothing else is no part of it.
#![tactic(auto)]

mod extended;
pub mod hiding_pcs;
pub mod ldes;
pub mod pcs;
pub mod readings;
pub mod univariate;

pub use crate::hiding_pcs::HidingFriPcs;
pub use p3_fri_hiding_openings::HidingFriPcsProverData;
