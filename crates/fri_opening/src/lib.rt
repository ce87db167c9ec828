//! Requests of records, opened by any scheme that is made of parameters: their batches are
//! committed to, and opened at their points once the challenger has absorbed the statement.
#![tactic(auto)]

mod lending;
mod opening;
mod prepared;

pub use crate::lending::{spares, swap_data};
pub use crate::opening::{Opening, answered, open, open_requests, requests_of};
pub use crate::prepared::known_of;
