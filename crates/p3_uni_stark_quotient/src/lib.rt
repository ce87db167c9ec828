//! A STARK prover's quotient: the values on a coset of the constraints' sum over the polynomial
//! that vanishes on the trace's domain, by the columns' values there, and the chunks of these
//! values.
#![tactic(auto)]

mod blocks;
pub mod chunks;
pub mod columns;
mod lanes;
pub mod laws;
mod packed;
mod row;
mod rows;
pub mod selectors;
pub mod values;

pub use crate::chunks::quotient_chunks;
pub use crate::columns::CosetColumns;
pub use crate::laws::{coset_off_law, quotient_values_law};
pub use crate::selectors::{is_off_subgroups, selectors_on_coset};
pub use crate::values::quotient_values;
