//! What both sides absorb before an opening begins, over any field of the SHA-256 challenger: a
//! whole statement, which is a context, the parameters, and of each commitment its digest and the
//! domains, widths and points of its matrices. A scheme's own calls absorb claimed values alone, so
//! from a fresh challenger they bind no commitment; after this they bind all of it. Here too: what
//! is absorbed before a statement of a scheme that hides, and the challenge after a context, for
//! callers who draw challenges of their own before they open.
#![tactic(auto)]

mod absorption;
mod context;
mod hiding;
mod labels;
mod laws;
mod stated;
mod stated_field;

pub use crate::absorption::absorb_statement;
pub use crate::context::challenge_after;
pub use crate::hiding::absorb_hiding;
pub use crate::laws::statement_law;
pub use crate::stated::{StatedCommitment, StatedMatrix};
pub use crate::stated_field::StatedField;
