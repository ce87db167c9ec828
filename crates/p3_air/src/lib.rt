//! Constraint systems as data: a list of nodes, of which each names earlier ones, and constraints,
//! each a node that has to be zero on some rows of a trace. Built by calls, checked where it comes
//! from outside, evaluated at a row, and held against a whole trace.
#![tactic(auto)]

pub mod air;
pub mod assignment;
pub mod builder;
mod check;
mod degree;
pub mod error;
pub mod evaluation;
pub mod filtered;
mod shape;
mod trace;

pub use crate::air::{Air, AirLayout, Constraint, Node, Rows};
pub use crate::assignment::Assignment;
pub use crate::builder::{AirBuilder, Expression};
pub use crate::error::{AirError, DegreeError, TraceError};
pub use crate::evaluation::Window;
pub use crate::filtered::FilteredAirBuilder;
