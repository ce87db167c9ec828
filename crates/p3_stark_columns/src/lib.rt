//! What a STARK prover does with a scheme, over any scheme: it commits to preprocessed columns, to
//! a trace, to the chunks of a quotient and, where the scheme hides, to random polynomials, and
//! opens them.
#![tactic(auto)]

pub mod commit;
pub mod error;
pub mod opening;
pub mod stark;

pub use crate::commit::StarkColumns;
pub use crate::error::StarkError;
pub use crate::opening::StarkOpening;
pub use crate::stark::open_stark_columns;
