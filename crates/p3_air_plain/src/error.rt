//! Why a plain form is no constraint system's, and why a trace of numbers is refused.

use p3_air::{AirError, TraceError};
use std::fmt;
use thiserror::Error;

/// Why a plain form is refused: by its first constant that is no element, or else by what is
/// malformed in the system that it denotes, or else by a degree.
#[derive(Clone, Copy, Debug, PartialEq, Eq, Error)]
pub enum PlainAirError {
    /// The node is a constant that isn't below the field's order.
    #[error("the constant of node {node} is not below the field's order")]
    ConstantOutOfRange { node: usize },
    /// A node or a constraint names what isn't there.
    #[error("{0}")]
    Malformed(AirError),
    /// A node's degree doesn't fit a `usize`.
    #[error("the degree of a node is too large")]
    DegreeTooLarge,
    /// Memory was refused.
    #[error("out of memory")]
    OutOfMemory,
}

/// What a number belongs to.
#[derive(Clone, Copy, Debug, PartialEq, Eq)]
pub enum Part {
    /// A row of the trace.
    Trace,
    /// A row of the preprocessed columns.
    Preprocessed,
    /// The list of public values.
    PublicValues,
    /// A periodic column.
    Periodic,
}

impl fmt::Display for Part {
    fn fmt<W: fmt::Write>(&self, f: &mut fmt::Formatter<W>) -> fmt::Result {
        match self {
            Part::Trace => f.write_str("trace"),
            Part::Preprocessed => f.write_str("preprocessed"),
            Part::PublicValues => f.write_str("public_values"),
            Part::Periodic => f.write_str("periodic"),
        }
    }
}

/// Why numbers aren't those of elements.
#[derive(Clone, Copy, Debug, PartialEq, Eq, Error)]
pub enum ElementError {
    /// The number isn't below the field's order.
    #[error("{part}, row {row}, entry {entry} is not below the field's order")]
    OutOfRange {
        part: Part,
        /// The number of its row or column; 0 of a public value.
        row: usize,
        entry: usize,
    },
    /// Memory was refused.
    #[error("out of memory")]
    OutOfMemory,
}

/// Why a trace of numbers doesn't satisfy a constraint system in its plain form.
#[derive(Clone, Copy, Debug, PartialEq, Eq, Error)]
pub enum PlainTraceError {
    /// The form is no constraint system's.
    #[error("{0}")]
    Air(PlainAirError),
    /// A number is no element's.
    #[error("{0}")]
    Element(ElementError),
    /// The trace's sizes aren't those of the system, or a constraint doesn't hold.
    #[error("{0}")]
    Trace(TraceError),
}
