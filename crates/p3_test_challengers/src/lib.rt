//! Challengers for tests.
#![tactic(auto)]

pub mod always_one;

pub use crate::always_one::AlwaysOne;
