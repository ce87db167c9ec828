//! A tree over SHA-256 binds: two openings of one index under one root that show different rows
//! give two different messages with one digest, and a call finds them.
#![tactic(auto)]

pub mod collision;
pub mod laws;

pub use crate::collision::{Messages, find_collision};
