//! What programs share that ask a verifier about altered JSON documents: the changes as data, the
//! comparison of answers with those that an independent program worked out, and the parameters of
//! the schemes as they stand in such a document.
#![tactic(auto)]

pub mod change;
pub mod comparison;
pub mod parameters;
pub mod places;
pub mod report;

pub use crate::comparison::Answers;
pub use crate::parameters::read_parameters;
pub use crate::places::{entries, number, place, read, read_plain};
pub use crate::report::report_on;
