//! Why a constraint system, its degrees or a trace are refused.

ghost use Rattle.std.specs.Prelude.{◌≡◌};
ghost use Rattle.p3_air.specs.declared.error.DegreeError.TheVariants as degree;
ghost use Rattle.p3_air.specs.declared.error.TraceError.TheVariants as trace;

use std::alloc::AllocError;
use thiserror::Error;

/// Why a constraint system is malformed: by its first node that is, or else its first constraint.
#[derive(Clone, Copy, Debug, PartialEq, Eq, Error)]
pub enum AirError {
    /// The node names a column that the trace doesn't have.
    #[error("node {node} names column {column} of the trace, which is not there")]
    UnknownColumn { node: usize, column: usize },
    /// The node names a preprocessed column that isn't there.
    #[error("node {node} names preprocessed column {column}, which is not there")]
    UnknownPreprocessedColumn { node: usize, column: usize },
    /// The node names a public value that isn't there.
    #[error("node {node} names public value {index}, which is not there")]
    UnknownPublicValue { node: usize, index: usize },
    /// The node names a periodic column that isn't there.
    #[error("node {node} names periodic column {column}, which is not there")]
    UnknownPeriodicColumn { node: usize, column: usize },
    /// The node names a node that isn't before it.
    #[error("node {node} names node {operand}, which is not before it")]
    LaterOperand { node: usize, operand: usize },
    /// The constraint names a node that isn't there.
    #[error("constraint {constraint} names node {node}, which is not there")]
    UnknownNode { constraint: usize, node: usize },
}

/// Why degrees aren't given.
#[derive(Clone, Copy, Debug, PartialEq, Eq, Error)]
pub enum DegreeError {
    /// A node's degree doesn't fit a `usize`.
    #[error("a degree is too large")]
    TooLarge,
    /// Memory was refused.
    #[error("out of memory")]
    OutOfMemory,
}

impl From<AllocError> for DegreeError {
    ghost from_gives = { λ _ e. e ≡ degree.OutOfMemory };

    fn from(_error: AllocError) -> DegreeError {
        DegreeError::OutOfMemory
    }
}

/// Why a trace doesn't satisfy a constraint system: because of its shape, or of the first row, and
/// there the first constraint, that isn't zero.
#[derive(Clone, Copy, Debug, PartialEq, Eq, Error)]
pub enum TraceError {
    /// The trace has no rows.
    #[error("the trace has no rows")]
    NoRows,
    /// The row hasn't as many entries as there are columns.
    #[error("row {row} of the trace has {entries} entries for {width} columns")]
    Width {
        row: usize,
        entries: usize,
        width: usize,
    },
    /// There are preprocessed columns, and not as many of their rows as of the trace.
    #[error("there are {rows} preprocessed rows for {height} of the trace")]
    PreprocessedHeight {
        rows: usize,
        height: usize,
    },
    /// The preprocessed row hasn't as many entries as there are preprocessed columns.
    #[error("preprocessed row {row} has {entries} entries for {width} columns")]
    PreprocessedWidth {
        row: usize,
        entries: usize,
        width: usize,
    },
    /// There are more public values, or fewer, than the constraints speak of.
    #[error("there are {found} public values for {expected}")]
    PublicValues {
        found: usize,
        expected: usize,
    },
    /// There are more periodic columns, or fewer, than the constraints speak of.
    #[error("there are {found} periodic columns for {expected}")]
    PeriodicColumns {
        found: usize,
        expected: usize,
    },
    /// The periodic column has no entries.
    #[error("periodic column {column} has no entries")]
    EmptyPeriodicColumn {
        column: usize,
    },
    /// The constraint isn't zero at the row.
    #[error("constraint {constraint} does not hold at row {row}")]
    Unsatisfied {
        row: usize,
        constraint: usize,
    },
    /// Memory was refused.
    #[error("out of memory")]
    OutOfMemory,
}

impl From<AllocError> for TraceError {
    ghost from_gives = { λ _ e. e ≡ trace.OutOfMemory };

    fn from(_error: AllocError) -> TraceError {
        TraceError::OutOfMemory
    }
}
