//! Claims that records list, verified by any scheme that is made of parameters, once the challenger
//! has absorbed the statement: what claims state, or what a request asks.
#![tactic(auto)]

mod statement;
mod verification;

pub use crate::statement::{batches_stated, bound_challenger, challenge, context_of, next_drawn};
pub use crate::verification::verify;
