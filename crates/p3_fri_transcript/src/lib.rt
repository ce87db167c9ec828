//! The transcript that both sides of the low-degree test draw their challenges from.
#![tactic(auto)]

pub mod labels;
pub mod laws;
mod rounds;
pub mod transcript;

pub use crate::transcript::FriShape;
pub use p3_fri_folding::FriParameters;
