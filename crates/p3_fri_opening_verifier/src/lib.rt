//! The verifier of openings: the transcript around the low-degree test, and the test inside it.
#![tactic(auto)]

mod seeded;
pub mod setting;
mod verify;

pub use crate::verify::verify_opening;
