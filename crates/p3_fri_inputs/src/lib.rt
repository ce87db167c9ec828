//! What a verifier reads of the committed inputs: it opens them at the queries' positions, and sums
//! up the quotients of what is claimed and what is opened, for each log height.
#![tactic(auto)]

mod checks;
mod claims;
mod heights;
mod inputs;
mod opening;
mod points;
mod setting;
mod sums;

pub use heights::heights_are_within;
pub use inputs::open_inputs;
