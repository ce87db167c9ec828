//! What the statements of soundness by counting come to in numbers: for parameters, heights and a
//! number of failing positions, how many challenges of each round and of each batch can be bad.
#![tactic(auto)]

pub mod errors;
pub mod laws;
pub mod soundness;

pub use crate::errors::{BatchError, RoundError};
pub use crate::soundness::{SoundnessError, soundness_error, tallest_of};
