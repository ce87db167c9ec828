//! Challengers: where both sides of a protocol absorb what was sent and draw their challenges from.
//! What a challenger answers, and the state that a call leaves it in, are functions of its state,
//! which its traits name as ghost members; contracts above speak of whole runs in these words. No
//! call takes memory.
#![tactic(auto)]

pub mod field_challenger;
pub mod grinding_challenger;
pub mod laws;
pub mod observe;
pub mod plays;
pub mod sample;

pub use crate::field_challenger::FieldChallenger;
pub use crate::grinding_challenger::GrindingChallenger;
pub use crate::observe::CanObserve;
pub use crate::plays::Plays;
pub use crate::sample::{CanSample, CanSampleBits};
