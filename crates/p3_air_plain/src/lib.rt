//! The plain form of a constraint system: numbers in records and lists, which serde's formats write
//! and read. A constant is its canonical number, and a node one of the forms of `PlainNode`, in
//! JSON a record of one field.
#![tactic(auto)]

mod checked;
mod element;
pub mod elements;
pub mod error;
pub mod forms;
pub mod laws;
mod read;
mod write;

pub use crate::checked::check_plain_trace;
pub use crate::elements::{
    OwnedAssignment, assignment_from_plain, elements_from_plain, rows_from_plain,
};
pub use crate::error::{ElementError, Part, PlainAirError, PlainTraceError};
pub use crate::forms::{PlainAir, PlainConstraint, PlainLayout, PlainNode, PlainRows};
pub use crate::laws::air_form_law;
pub use crate::read::air_from_plain;
pub use crate::write::air_to_plain;
