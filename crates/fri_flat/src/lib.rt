//! Both schemes over bytes that a caller without a JSON reader can write and read: requests,
//! answers and statements in the flat form. There a count is four bytes, the number of a field's
//! element as many as its order needs, a digest 32, and a list or a context as long as its count
//! says. The calls of the scheme that hides are in `hiding`.
//!
//! Each call is over one of the fields of `fri_schemes`, which the bytes don't name.
//!
//! What is accepted is accepted under the context that a statement names, with its parameters,
//! commitments, domains, widths and points: a challenger absorbs all of them first. `challenge`
//! draws what has to be random after a commitment, as its point, from the bytes of what was sent.
//!
//! Any bytes may come: memory is asked for only as far as bytes are there, and bytes that are
//! missing or left over are refused by name and offset.
#![tactic(auto)]

mod calls;
mod elements;
mod failure;
mod fault;
mod field;
mod flat;
mod forms;
pub mod hiding;
mod hiding_forms;
mod hiding_parts;
mod kept;
mod layout;
mod numbers;
mod proof;
mod reader;
mod records;
mod statement;
mod writer;

pub use crate::calls::{challenge, commit, open, verify};
pub use crate::failure::{ANSWERED, Failure, MALFORMED, OUT_OF_MEMORY, REFUSED};
pub use crate::kept::{commit_kept, open_kept, prover};
pub use fri_prover::Prover;
pub use fri_requests::SchemeField;
