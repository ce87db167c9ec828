//! The transcript of the polynomial commitment scheme, around that of the low-degree test.
#![tactic(auto)]

pub mod labels;
pub mod laws;
pub mod pcs_transcript;

pub use crate::pcs_transcript::PcsShape;
