//! The verifier of the low-degree test: the whole of it, the two calls that do most of its work,
//! and why it refuses.

pub use p3_fri_folding::PowPhase;
pub use p3_fri_inputs::{heights_are_within, open_inputs};
pub use p3_fri_queries::{QuerySetting, fold_query};
pub use p3_fri_relation::error::{FriError, FriOpenings};
pub use p3_fri_verifier::verify_fri;
