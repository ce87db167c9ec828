//! A STARK by bytes, for callers that aren't Rattle: texts of a constraint system, of a trace, of
//! public values and of a proof, in JSON, are checked, proved and verified in both schemes.
//!
//! Any bytes may come: those that aren't the text of their record are refused by its name.
#![tactic(auto)]

mod calls;
mod failure;

pub use crate::calls::{check, prove, verify};
pub use crate::failure::Failure;
