//! SHA-256 of eight messages of one length at once, each in a lane of 32 bits.
#![tactic(auto)]

mod blocks;
mod digests;
mod functions;
mod padding;
mod rounds;
mod words;

pub use crate::digests::digests_of_eight;
