//! The verifier of the low-degree test. Before its transcript begins it compares the parameters and
//! the claimed log heights, the lengths of the proof's lists, how often it opens the commitments,
//! and its witnesses of proofs of work that have no bits.
#![tactic(auto)]

mod canonical;
mod claimed;
mod counts;
mod draws;
mod inputs;
mod instance;
mod openings;
mod plan;
mod positions;
mod replay;
pub mod setting;
mod siblings;
mod verify;

pub use crate::canonical::check_canonical;
pub use crate::counts::check_counts;
pub use crate::inputs::check_inputs;
pub use crate::instance::check_instance;
pub use crate::verify::{verify_canonical, verify_fri};
