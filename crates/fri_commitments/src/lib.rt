//! The batches of requests: read of their records, committed to by any scheme that is made of
//! parameters, and named again by records that ask for what is kept.
#![tactic(auto)]

mod committed;
mod masking;
mod naming;
mod reading;
mod refusals;

pub use crate::committed::{Committed, commit, commit_all, commit_one};
pub use crate::masking::Masking;
pub use crate::naming::{Data, are_named, read_asked};
pub use crate::reading::{Asked, Batches, ListedBatch, have_matrix, read_request};
pub use crate::refusals::refusal;
